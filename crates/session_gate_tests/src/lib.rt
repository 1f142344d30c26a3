//! Connections at desks of their own, over links in memory: tests alone, of tables and of streams that are drawn at random.
#![tactic(auto)]

#[cfg(test)]
mod tests;
