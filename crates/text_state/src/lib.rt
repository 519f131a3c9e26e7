// What the text reader keeps of the lines so far, and how it goes on behind one.
#![tactic(auto)]

pub mod state;
pub mod tally;
