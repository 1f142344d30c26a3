//! Serving over links that wait for each other: tests alone.
#![tactic(auto)]

#[cfg(test)]
mod tests;
