//! The objects of `outer_io`, in memory and over the system: tests alone.
#![tactic(auto)]

#[cfg(test)]
mod tests;
