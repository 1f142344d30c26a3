//! Gates in memory, and over sockets of this machine: tests alone.
#![tactic(auto)]

#[cfg(test)]
mod tests;
