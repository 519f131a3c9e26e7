// Chains packed into one number, and followed through a register.
#![tactic(auto)]

pub mod follow;
pub mod packed;
pub mod reading;
