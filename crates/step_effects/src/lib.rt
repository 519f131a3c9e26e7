// What one record makes of one rule: what it stores and what it sends.
#![tactic(auto)]

pub mod sent;
pub mod stored;
