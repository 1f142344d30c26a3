//! What types have which values, at the limits of texts and lists: tests alone.
#![tactic(auto)]

#[cfg(test)]
mod tests;
