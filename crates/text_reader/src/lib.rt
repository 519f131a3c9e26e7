// The text reader: one loop over the lines that holds the program and the open step's plan. The array for the codes of
// expressions is lent to it.
#![tactic(auto)]

ghost use Rattle.std.specs.Prelude.{◌≡◌, ◌≤◌, length};
ghost use Rattle.register.specs.Shape.{Limits};
ghost use Rattle.text_rules.specs.Text.{lines, start as start_of, read_from};
ghost use Rattle.text_reader.specs.Answers.{Answers};

use program::Program;
use text_judge::next_line;
use text_plan::store;
use text_plan::store::Store;
use text_readings::Open;
use text_refusals::Refusal;
use text_rules::scope::Scope;
use text_state::state;
use text_state::state::State;

// Why a text is refused, and at which line.
#[derive(Clone, Copy, Debug, PartialEq, Eq)]
pub struct Refused {
    pub refusal: Refusal,
    pub line: usize,
}

// The program of the lines of a text, the codes of its expressions in the lent array, which has a place for each of its at most
// 8,192 bytes. The plan of the open step is held beside it.
pub fn read_lines(text: &[u8], scope: Scope, codes: &mut [u64]) -> Result<Program, Refused>
    requires { Limits scope.sizes × (length text.now ≤ 8192) × (length codes.old ≡ 8192) }
    ensures { Answers codes.new (read_from scope start_of 1 (lines text.now)) result }
{
    let mut open_step = Open::empty();
    let mut slots = [store::empty_slot(); 1024];
    let mut frames = [store::empty_frame(); 32];
    let mut state = State::start();
    let mut used = 0;
    let mut at = 0;
    let mut line = 1;
    while at < text.len() {
        let next = match next_line(text, at, scope, state, codes, used, open_step.full) {
            Ok(next) => next,
            Err(refused) => {
                let refusal = refused.refusal;
                return Err(Refused { refusal, line });
            }
        };
        let lines = open_step.plan.count;
        match store::plan_line(&mut open_step, codes, state, next.line) {
            Some(Store::Rule(place, located)) => slots[place] = located,
            Some(Store::Close(step)) => {
                frames[step] = state.open_frame(open_step.plan, open_step.wanted);
                open_step = Open::empty();
            }
            Some(Store::Last(step)) => frames[step] = state::last_frame(frames[step]),
            None => {}
        }
        state = state.advance(lines, next.line);
        used = next.used;
        at = next.end + 1;
        line += 1;
    }
    match text_refusals::last_refusal(state) {
        Ok(()) => Ok(Program {
            slots,
            frames,
            steps: state.steps,
            lines: state.lines,
        }),
        Err(refusal) => Err(Refused { refusal, line }),
    }
}
