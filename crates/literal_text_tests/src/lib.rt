//! What `literal_text` reads and prints: tests alone, of literals and names of types.
#![tactic(auto)]

#[cfg(test)]
mod tests;
