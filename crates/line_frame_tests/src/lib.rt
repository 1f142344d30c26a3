//! Scripts that are run in pieces, with reads and writes that fail: tests alone.
#![tactic(auto)]

#[cfg(test)]
mod tests;
