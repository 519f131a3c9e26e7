// The rules text: what it is, which texts pass, and what follows from that.
#![tactic(auto)]

pub mod around;
pub mod line;
pub mod scope;
