// Where the reader of a text stands, and how it goes on behind a line that has passed.
ghost use Rattle.std.specs.Prelude.{◌≡◌, ◌+◌, ◌*◌, ◌≤◌, length};
ghost use Rattle.text_state.specs.State.{start_state, frame_of, last_frame, advance_of};

use crate::tally::Tally;
use plan_lines::Plan;
use program::frame::Frame;
use text_rules::around;
use text_rules::around::Around;
use text_rules::line::LineRead;

// The number of closed steps, the most plan lines of any of them, the loop around, whether a step is open and what is kept
// of its rules.
#[derive(Clone, Copy)]
pub struct State {
    pub steps: usize,
    pub lines: usize,
    pub around: Around,
    pub in_step: bool,
    pub tally: Tally,
}

impl State {
    #[tactic(auto, unfolding(crate::specs::State::start_state))]
    pub fn start() -> State
        ensures { result ≡ start_state }
    {
        State {
            steps: 0,
            lines: 0,
            around: Around::Outside,
            in_step: false,
            tally: Tally::no_rules(),
        }
    }

    // The place of the next rule.
    pub fn place(&self) -> usize
        requires { (self.now.steps ≤ 32) × (self.now.tally.rules ≤ 32) }
        ensures { result ≡ 32 * self.now.steps + self.now.tally.rules }
    {
        32 * self.steps + self.tally.rules
    }

    // The frame of the open step, with its plan and the lines of it that its rules read.
    #[tactic(auto, unfolding(crate::specs::State::frame_of))]
    pub fn open_frame(&self, plan: Plan, wanted: [bool; 64]) -> Frame
        ensures frame { result ≡ frame_of self.now plan wanted }
        ensures sized { length result.wanted ≡ 64 }
    {
        Frame {
            rules: self.tally.rules,
            remote: self.tally.remote,
            fields: self.tally.fields,
            setting: self.around.setting_in(),
            plan,
            wanted,
        }
    }

    // Behind a line that has passed; n is the number of lines of the open step's plan.
    #[tactic(auto, unfolding(crate::specs::State::advance_of, crate::specs::State::standing))]
    pub fn advance(self, n: usize, read: LineRead) -> State
        requires { (self.steps ≤ 32) × (self.tally.rules ≤ 32) }
        ensures { result ≡ advance_of self n read }
    {
        match read {
            LineRead::Step => State {
                in_step: true,
                tally: Tally::no_rules(),
                ..self
            },
            LineRead::End => State {
                steps: self.steps + 1,
                lines: self.lines.max(n),
                around: self.around.with_step(),
                in_step: false,
                tally: Tally::no_rules(),
            },
            LineRead::Done => State {
                around: Around::Outside,
                in_step: false,
                tally: Tally::no_rules(),
                ..self
            },
            LineRead::Loop(field, _) => State {
                around: Around::Unused(field),
                in_step: false,
                tally: Tally::no_rules(),
                ..self
            },
            LineRead::Rule(slot, _) => State {
                in_step: true,
                tally: self.tally.with_rule(slot.rule),
                ..self
            },
            LineRead::NoForm => self,
        }
    }
}

// The frame of a step that is the last of its loop.
#[tactic(auto, unfolding(crate::specs::State::last_frame))]
pub fn last_frame(frame: Frame) -> Frame
    ensures { result ≡ last_frame frame }
{
    Frame {
        setting: around::last_of(frame.setting),
        ..frame
    }
}
