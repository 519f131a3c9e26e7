// What stands beside the rules of a step.
use crate::setting::Setting;
use plan_lines::Plan;

// Their number, whether one is remote, which fields they write, the step's loop, its plan, and which lines of it they read.
#[derive(Clone, Copy, Debug, PartialEq, Eq)]
pub struct Frame {
    pub rules: usize,
    pub remote: bool,
    pub fields: [bool; 16],
    pub setting: Setting,
    pub plan: Plan,
    pub wanted: [bool; 64],
}
