//! What lines for several worlds come to, and what worlds answer to their own at once: tests alone.
#![tactic(auto)]

#[cfg(test)]
mod tests;
