//! What the engine does with small programs: tables of programs, of calls on them with their exact units and heights, and of the trees
//! and stores behind them. Tests alone.
#![tactic(auto)]

#[cfg(test)]
mod tests;
