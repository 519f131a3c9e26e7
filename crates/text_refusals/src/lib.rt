// Why a line is refused: the lowest number that applies to it where the reader stands, and to the end of the text.
#![tactic(auto)]

ghost use Rattle.std.specs.Prelude.{◌≡◌};
ghost use Rattle.text_refusals.specs.Number.{refusal_number, check_number};
ghost use Rattle.text_refusals.specs.Refusal.{checks_refusal, rule_refusal, step_refusal, end_refusal, misplaced, loop_refusal, done_refusal, refusal_of, last_refusal};

use program::rule::Rule;
use text_rules::line::{Checks, LineRead};
use text_state::state::State;

// What is wrong with a line: it has no form; it stands in the wrong place; it names no field; its kinds differ; a chain has too many
// hops; a number is out of range; there are too many steps or rules; a field takes both sorts of remote write; a plan has too many
// lines; a group is too deep; there are too many operators.
#[derive(Clone, Copy, Debug, PartialEq, Eq)]
pub enum Refusal {
    Form,
    Place,
    Field,
    Kind,
    Hops,
    Range,
    Limit,
    Sort,
    Lines,
    Depth,
    Operators,
}

impl Refusal {
    // Document 01's number of a refusal.
    #[tactic(auto, unfolding(crate::specs::Number::refusal_number))]
    pub fn number(self) -> u32
        ensures { result ≡ refusal_number self }
    {
        match self {
            Refusal::Form => 7,
            Refusal::Place => 8,
            Refusal::Field => 9,
            Refusal::Kind => 10,
            Refusal::Hops => 11,
            Refusal::Range => 12,
            Refusal::Limit => 13,
            Refusal::Sort => 14,
            Refusal::Lines => 15,
            Refusal::Depth => 24,
            Refusal::Operators => 25,
        }
    }
}

// The first of 9 to 12, 24 and 25.
#[tactic(auto, unfolding(crate::specs::Refusal::checks_refusal, crate::specs::Number::check_number, crate::specs::Number::refusal_number))]
fn checks_refusal(checks: Checks) -> Result<(), Refusal>
    ensures { check_number result ≡ checks_refusal checks }
{
    if !checks.named {
        return Err(Refusal::Field);
    }
    if !checks.kinded {
        return Err(Refusal::Kind);
    }
    if !checks.short {
        return Err(Refusal::Hops);
    }
    if !checks.ranged {
        return Err(Refusal::Range);
    }
    if !checks.shallow {
        return Err(Refusal::Depth);
    }
    if !checks.few {
        return Err(Refusal::Operators);
    }
    Ok(())
}

#[tactic(auto, using(crate::proofs::Numbers::number_stands), unfolding(crate::specs::Refusal::rule_refusal, crate::specs::Number::check_number, crate::specs::Number::refusal_number, laws::specs::Outcome::or_else))]
fn rule_refusal(state: State, rule: Rule, checks: Checks) -> Result<(), Refusal>
    ensures { check_number result ≡ rule_refusal state rule checks }
{
    if !state.in_step {
        return Err(Refusal::Place);
    }
    checks_refusal(checks)?;
    if 32 <= state.tally.rules {
        return Err(Refusal::Limit);
    }
    if state.tally.is_other_sort(rule) {
        return Err(Refusal::Sort);
    }
    Ok(())
}

#[tactic(auto, unfolding(crate::specs::Refusal::step_refusal, crate::specs::Number::check_number, crate::specs::Number::refusal_number))]
fn step_refusal(state: State) -> Result<(), Refusal>
    ensures { check_number result ≡ step_refusal state }
{
    if state.in_step {
        return Err(Refusal::Place);
    }
    if 32 <= state.steps {
        return Err(Refusal::Limit);
    }
    Ok(())
}

// `full`: the plan of the open step needs more than 64 lines.
#[tactic(auto, unfolding(crate::specs::Refusal::end_refusal, crate::specs::Number::check_number, crate::specs::Number::refusal_number))]
fn end_refusal(state: State, full: bool) -> Result<(), Refusal>
    ensures { check_number result ≡ end_refusal state full }
{
    if !state.in_step {
        return Err(Refusal::Place);
    }
    if full {
        return Err(Refusal::Lines);
    }
    Ok(())
}

// Whether a line that stands outside steps is out of place; `fits`: the loop around, or none, is one that it asks for.
#[tactic(auto, unfolding(crate::specs::Refusal::misplaced))]
fn is_misplaced(state: State, fits: bool) -> bool
    ensures { result ≡ misplaced state fits }
{
    state.in_step | !fits
}

#[tactic(auto, unfolding(crate::specs::Refusal::loop_refusal, crate::specs::Number::check_number, crate::specs::Number::refusal_number))]
fn loop_refusal(state: State, named: bool) -> Result<(), Refusal>
    ensures { check_number result ≡ loop_refusal state named }
{
    let outside = state.around.is_outside();
    if is_misplaced(state, outside) {
        return Err(Refusal::Place);
    }
    if !named {
        return Err(Refusal::Field);
    }
    Ok(())
}

#[tactic(auto, unfolding(crate::specs::Refusal::done_refusal, crate::specs::Number::check_number, crate::specs::Number::refusal_number))]
fn done_refusal(state: State) -> Result<(), Refusal>
    ensures { check_number result ≡ done_refusal state }
{
    if is_misplaced(state, state.around.is_used()) {
        return Err(Refusal::Place);
    }
    Ok(())
}

// The lowest number that applies to a line.
#[tactic(auto, unfolding(crate::specs::Refusal::refusal_of, crate::specs::Number::check_number, crate::specs::Number::refusal_number))]
pub fn line_refusal(state: State, full: bool, read: LineRead) -> Result<(), Refusal>
    ensures { check_number result ≡ refusal_of state full read }
{
    match read {
        LineRead::Step => step_refusal(state),
        LineRead::End => end_refusal(state, full),
        LineRead::Done => done_refusal(state),
        LineRead::Loop(_, named) => loop_refusal(state, named),
        LineRead::Rule(slot, checks) => rule_refusal(state, slot.rule, checks),
        LineRead::NoForm => Err(Refusal::Form),
    }
}

// Behind the last line: 8 where a step or a loop is still open.
#[tactic(auto, unfolding(crate::specs::Refusal::last_refusal, crate::specs::Number::check_number, crate::specs::Number::refusal_number))]
pub fn last_refusal(state: State) -> Result<(), Refusal>
    ensures { check_number result ≡ last_refusal state }
{
    if is_misplaced(state, state.around.is_outside()) {
        return Err(Refusal::Place);
    }
    Ok(())
}
