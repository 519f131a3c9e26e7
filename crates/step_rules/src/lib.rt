// The rules of one step: local rules store to the working cells, remote writes are delivered to them.
#![tactic(auto)]

pub mod local;
pub mod remote;
