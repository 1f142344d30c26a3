//! What `task_reader` reads and prints: tests alone, of texts and their programs, first faults, levels, and texts that are printed again.
#![tactic(auto)]

#[cfg(test)]
mod tests;
