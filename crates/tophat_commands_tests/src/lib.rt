//! The top call over files, sinks, ports and links in memory, and over a port of this machine: tests alone.
#![tactic(auto)]

#[cfg(test)]
mod tests;
