//! The plain commands on files, scripts and sinks in memory: tests alone.
#![tactic(auto)]

#[cfg(test)]
mod tests;
