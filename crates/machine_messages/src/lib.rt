// The message machine (document 01's machine by letters): the messages that bring a step's readings about, and what a run counts
// of them. See specs/.
#![tactic(auto)]

// The two machines: readings by following references, or by messages.
#[derive(Clone, Copy)]
pub enum Machine {
    Direct,
    Messages,
}
