// The line reader: each part answers an Option of what it reads, and `?` refuses the line (7).
#![tactic(auto)]

pub mod line;
