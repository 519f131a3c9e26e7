// What a line that has passed leaves to be stored in the program.
ghost use Rattle.std.specs.Prelude.{◌≡◌, [], ◌≤◌};
ghost use Rattle.plan_lines.specs.Held.{HoldsLines};
ghost use Rattle.text_plan.specs.Store.{empty_slot, LineFits, LinePlanned};

use crate::plan_rule;
use plan_lines::Plan;
use program::frame::Frame;
use program::location::{Located, Location, Locations, Places};
use program::rule::{Rule, Slot, Test};
use program::setting::Setting;
use program::term::Term;
use text_readings::Open;
use text_rules::line::LineRead;
use text_state::state::State;

// A rule at its place; or the frame of a step that the line closes, or marks as the last of its loop.
#[derive(Clone, Copy, Debug, PartialEq, Eq)]
pub enum Store {
    Rule(usize, Located),
    Close(usize),
    Last(usize),
}

// A place that holds no rule.
pub fn empty_slot() -> Located
    ensures { result.slot ≡ empty_slot }
{
    let slot = Slot {
        test: Test::Always,
        rule: Rule::Set(0, Term::Number(0)),
    };
    let own = Places {
        first: Location::Own,
        second: Location::Own,
    };
    let at = Locations {
        test: own,
        rule: own,
    };
    Located { slot, at }
}

// The frame of no step.
pub fn empty_frame() -> Frame
    ensures { (result.rules ≡ 0) × HoldsLines result.plan [] }
{
    Frame {
        rules: 0,
        remote: false,
        fields: [false; 16],
        setting: Setting::Single,
        plan: Plan::empty(),
        wanted: [false; 64],
    }
}

// What a line leaves. The plan of the open step grows by its rule.
pub fn plan_line(
    open_step: &mut Open,
    codes: &mut [u64],
    state: State,
    read: LineRead,
) -> Option<Store>
    requires { (state.steps ≤ 32) × (state.tally.rules ≤ 32) × LineFits codes.old state read }
    ensures { LinePlanned state open_step.old codes.old open_step.new codes.new read result }
{
    match read {
        LineRead::Rule(slot, _) => {
            let at = plan_rule(open_step, codes, slot);
            Some(Store::Rule(state.place(), Located { slot, at }))
        }
        LineRead::End => Some(Store::Close(state.steps)),
        LineRead::Done => Some(Store::Last(state.steps - 1)),
        LineRead::Step | LineRead::Loop(_, _) | LineRead::NoForm => None,
    }
}
