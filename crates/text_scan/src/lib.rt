// An expression in one pass, at any depth of groups.
#![tactic(auto)]

ghost use Rattle.std.specs.Prelude.{◌≡◌, true, ◌≤◌, length};
ghost use Rattle.register.specs.Shape.{Limits};
ghost use Rattle.text_scan.specs.Scan.{ScanStateAt, TurnAt, ScanAt};

use register::Sizes;
use text_codes::summary::Summary;
use text_places::mark::Mark;
use text_places::place;
use text_terms::term;

// Where a pass stands: whether an operand is due, in how many groups, and what has been gathered.
#[derive(Clone, Copy)]
pub struct ScanState {
    pub at: usize,
    pub due: bool,
    pub deep: usize,
    pub seen: Summary,
}

// Behind one operand, or in a group that opens.
fn operand(line: &[u8], sizes: Sizes, state: ScanState) -> Option<ScanState>
    requires { Limits sizes × ScanStateAt line.now state × (state.due ≡ true) }
    ensures { TurnAt sizes line.now state result }
{
    if let Some((parts, end)) = term::read_term(line, state.at, sizes) {
        return Some(ScanState {
            at: end,
            due: false,
            seen: state.seen.with_term(state.deep, parts),
            ..state
        });
    }
    let end = place::mark(line, state.at, true, Mark::OpenRound)?;
    Some(ScanState {
        at: end,
        due: true,
        deep: state.deep + 1,
        ..state
    })
}

// The expression at `at`: what it holds, and the place behind it.
pub fn scan(line: &[u8], at: usize, sizes: Sizes) -> Option<(Summary, usize)>
    requires { Limits sizes × (at ≤ length line.now) }
    ensures { ScanAt sizes line.now at result }
{
    let mut state = ScanState {
        at,
        due: true,
        deep: 0,
        seen: Summary::nothing(),
    };
    // How many turns there are is known only where the expression ends.
    loop {
        state = if state.due {
            operand(line, sizes, state)?
        } else if let Some((sign, end)) = place::operator(line, state.at) {
            ScanState {
                at: end,
                due: true,
                seen: state.seen.with_operator(sign),
                ..state
            }
        } else if state.deep == 0 {
            return Some((state.seen, state.at));
        } else {
            let end = place::mark(line, state.at, false, Mark::CloseRound)?;
            ScanState {
                at: end,
                deep: state.deep - 1,
                ..state
            }
        };
    }
}
