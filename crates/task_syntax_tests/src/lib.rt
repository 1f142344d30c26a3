//! What `task_syntax` lexes: tests alone, of tokens and first faults.
#![tactic(auto)]

#[cfg(test)]
mod tests;
