// The next line of a text, read and judged where the reader stands.
#![tactic(auto)]

ghost use Rattle.std.specs.Prelude.{◌≤◌, ◌<◌, length};
ghost use Rattle.register.specs.Shape.{Limits};
ghost use Rattle.text_next.specs.Front.{CodeRoom};
ghost use Rattle.text_judge.specs.Judged.{Judged};

use text_refusals::Refusal;
use text_rules::line::LineRead;
use text_rules::scope::Scope;
use text_state::state::State;

// A line: where it ends, how many codes there are behind it, and its reading.
#[derive(Clone, Copy)]
pub struct Next {
    pub end: usize,
    pub used: usize,
    pub line: LineRead,
}

// A line that is read and refused.
#[derive(Clone, Copy)]
pub struct RefusedLine {
    pub refusal: Refusal,
    pub next: Next,
}

// The line that begins at `at`. `full`: the plan of the open step needs more than 64 lines.
pub fn next_line(
    text: &[u8],
    at: usize,
    scope: Scope,
    state: State,
    codes: &mut [u64],
    used: usize,
    full: bool,
) -> Result<Next, RefusedLine>
    requires { Limits scope.sizes × (at < length text.now) × (used ≤ at) × CodeRoom (length text.now) codes.old }
    ensures { Judged scope text.now at state full codes.old codes.new used result }
{
    let end = text_next::line_end(text, at);
    let first = text_next::read_first(text, at, end, scope.sizes, codes, used);
    let next = Next {
        end,
        used: first.used,
        line: first.line,
    };
    match text_refusals::line_refusal(state, full, first.line) {
        Ok(()) => Ok(next),
        Err(refusal) => Err(RefusedLine { refusal, next }),
    }
}
