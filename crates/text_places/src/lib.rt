// Single tokens at a place of a line, and the place behind them.
#![tactic(auto)]

pub mod mark;
pub mod place;
pub mod word;
