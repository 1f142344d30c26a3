//! Journals over disks in memory: their bytes, and what a crash leaves of an entry that stops at each of its calls. Tests alone.
#![tactic(auto)]

#[cfg(test)]
mod tests;
