// What a read program is: terms, tests, rules, steps, and the array that holds them. The readers of a text make it, and the
// runs use it.
#![tactic(auto)]

pub mod code;
pub mod frame;
pub mod location;
pub mod rule;
pub mod setting;
pub mod term;

use crate::frame::Frame;
use crate::location::Located;

// Rule k of step s, both from 0, stands at 32 × s + k; beside the rules the frames of the steps, their number, and the most
// lines of any step's plan.
#[derive(Drop)]
pub struct Program {
    pub slots: [Located; 1024],
    pub frames: [Frame; 32],
    pub steps: usize,
    pub lines: usize,
}
