// What a plain rule stores and sends. No sum of its test leaves the range, nor does one of its terms, so that these are readings.
#![tactic(auto)]

ghost use Rattle.std.specs.Prelude.{◌≡◌, ◌<◌, [], Ok};
ghost use Rattle.register.specs.View.{cells_in};
ghost use Rattle.program.specs.declared.rule.Rule.TheVariants.{Set, Combine, Remote};
ghost use Rattle.program.specs.Program.{own, is_remote};
ghost use Rattle.program.specs.Stored.{target_in};
ghost use Rattle.step_terms.specs.Found.{found_at, RuleReaches, SlotReaches, TargetFound, Names};
ghost use Rattle.step_operations.specs.Evaluated.{of_sum};
ghost use Rattle.step_effects.specs.Answers.{done_by};
ghost use Rattle.step_plain.specs.Done.{PlainDone, PlainSent, PlainWrite, PlainMessages};

use machine::message::Message;
use program::location::{Located, Places};
use program::rule::{Operator, Rule, Sort};
use program::term::Term;
use register::cells::Cells;
use step_effects::stored::Write;
use step_operations::operation;
use step_terms::term;
use step_tests;

#[tactic(auto, unfolding(program::specs::Program::is_remote, program::specs::Stored::target_in))]
fn is_remote(rule: Rule) -> bool
    ensures { result ≡ is_remote (target_in rule) }
{
    matches!(rule, Rule::Remote(_, _, _, _))
}

#[tactic(auto, unfolding(step_effects::specs::Answers::done_by, step_effects::specs::Answers::target_write))]
fn write_reading(field: u64, reading: Option<i32>) -> Write
    ensures { result ≡ done_by (own field) (Ok reading) }
{
    match reading {
        None => Write::Nothing,
        Some(value) => Write::Store(field, value),
    }
}

#[tactic(auto, unfolding(step_operations::specs::Evaluated::of_sum, step_effects::specs::Answers::done_by, step_effects::specs::Answers::target_write, program::specs::Program::target_field))]
fn write_sum(field: u64, sum: Option<i32>) -> Write
    ensures { result ≡ done_by (own field) (of_sum sum) }
{
    match sum {
        Some(value) => Write::Store(field, value),
        None => Write::OutOfRange(field),
    }
}

// An operation on two terms at record u, for a field.
fn combine(
    cells: &Cells<'_>,
    values: &[i64],
    marks: &[u8],
    u: usize,
    field: u64,
    operator: Operator,
    x: Term,
    y: Term,
    at: Places,
) -> Write
    requires { (u < cells.now.sizes.records) × RuleReaches cells.now.sizes values.now marks.now u [] at (Combine field operator x y) }
    ensures { PlainDone cells.now.sizes (cells_in cells.now) values.now marks.now u at (Combine field operator x y) result }
{
    let first = at.first;
    let Some(a) = step_tests::term_value(cells, values, marks, u, x, first) else {
        return Write::Nothing;
    };
    let second = at.second;
    let Some(b) = step_tests::term_value(cells, values, marks, u, y, second) else {
        return Write::Nothing;
    };
    write_sum(field, operation::operate(operator, a, b))
}

// What a plain rule stores in record u.
pub fn local_write(
    cells: &Cells<'_>,
    values: &[i64],
    marks: &[u8],
    u: usize,
    located: Located,
) -> Write
    requires { (u < cells.now.sizes.records) × SlotReaches cells.now.sizes values.now marks.now u [] located }
    ensures { PlainWrite cells.now.sizes (cells_in cells.now) values.now marks.now u located result }
{
    let slot = located.slot;
    let rule = slot.rule;
    if is_remote(rule) {
        return Write::Nothing;
    }
    let test = slot.test;
    let places = located.at.test;
    if !step_tests::holds(cells, values, marks, u, test, places) {
        return Write::Nothing;
    }
    let at = located.at.rule;
    match rule {
        Rule::Set(field, x) => {
            let first = at.first;
            write_reading(
                field,
                step_tests::term_value(cells, values, marks, u, x, first),
            )
        }
        Rule::Combine(field, operator, x, y) => combine(
            cells, values, marks, u, field, operator, x, y, at,
        ),
        Rule::Remote(_, _, _, _) => Write::Nothing,
    }
}

// A write to the record at a chain: "One whose C or X is unfilled does nothing."
fn send(
    cells: &Cells<'_>,
    values: &[i64],
    marks: &[u8],
    u: usize,
    sort: Sort,
    field: u64,
    target: u64,
    x: Term,
    at: Places,
) -> Option<Message>
    requires parts { (u < cells.now.sizes.records) × RuleReaches cells.now.sizes values.now marks.now u [] at (Remote sort field target x) }
    requires names { Names (found_at cells.now.sizes (cells_in cells.now) values.now marks.now u at.first) }
    ensures { PlainSent cells.now.sizes (cells_in cells.now) values.now marks.now u at sort field target x result }
{
    let first = at.first;
    let to = term::found_at(cells, values, marks, u, first)?;
    let second = at.second;
    let amount = step_tests::term_value(cells, values, marks, u, x, second)?;
    Some(Message {
        sort,
        target: integers::index(to),
        field,
        amount,
    })
}

// What a plain rule sends from record u.
pub fn message_of(
    cells: &Cells<'_>,
    values: &[i64],
    marks: &[u8],
    u: usize,
    located: Located,
) -> Option<Message>
    requires parts { (u < cells.now.sizes.records) × SlotReaches cells.now.sizes values.now marks.now u [] located }
    requires target_found { TargetFound Names cells.now.sizes (cells_in cells.now) values.now marks.now u located.at.rule located.slot.rule }
    ensures { PlainMessages cells.now.sizes (cells_in cells.now) values.now marks.now u located result }
{
    let slot = located.slot;
    let Rule::Remote(sort, field, target, x) = slot.rule else {
        return None;
    };
    let at = located.at;
    if !step_tests::holds(cells, values, marks, u, slot.test, at.test) {
        return None;
    }
    send(cells, values, marks, u, sort, field, target, x, at.rule)
}
