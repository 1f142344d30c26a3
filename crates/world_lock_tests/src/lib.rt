//! What sessions of one world do: calls one after the other in tables, and many calls of threads at once. Tests alone.
#![tactic(auto)]

#[cfg(test)]
mod tests;
