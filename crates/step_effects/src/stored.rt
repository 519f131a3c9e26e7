// What a rule stores in its own record, or that a sum of it leaves the range.
ghost use Rattle.std.specs.Prelude.{◌≡◌, ◌<◌};
ghost use Rattle.register.specs.View.{cells_in};
ghost use Rattle.program.specs.declared.rule.Rule.TheVariants.{Combine};
ghost use Rattle.program.specs.Program.{operation as operationOn, target_field};
ghost use Rattle.program.specs.Stored.{rule_in, target_in, expression_in, term_in};
ghost use Rattle.program.specs.Terms.{RulePlaced, SlotPlaced};
ghost use Rattle.step_terms.specs.Found.{Told, RuleReaches, SlotReaches};
ghost use Rattle.step_operations.specs.Evaluated.{evaluated};
ghost use Rattle.step_effects.specs.Answers.{done_by, effect_of, write_of, DoneFor};

use program::location::{Located, Places};
use program::rule::{Operator, Rule};
use program::term::Term;
use register::cells::Cells;
use step_expressions::term;
use step_operations::operation;
use step_operations::operation::OutOfRange;

// A rule stores nothing in its own record or a value in a field; or a sum of it leaves the range, for the field that it writes. No
// Result of an Option: what is told of each of the three is another thing, and none of them is passed on by `?`.
#[derive(Clone, Copy, Debug, PartialEq, Eq)]
pub enum Write {
    Nothing,
    Store(u64, i32),
    OutOfRange(u64),
}

// The field that a rule writes.
#[tactic(auto, unfolding(program::specs::Program::target_field, program::specs::Stored::target_in))]
fn field_of(rule: Rule) -> u64
    ensures { result ≡ target_field (target_in rule) }
{
    match rule {
        Rule::Set(field, _) | Rule::Combine(field, _, _, _) | Rule::Remote(_, field, _, _) => field,
    }
}

// What a rule does with the value of its expression: the amount of a remote one is not stored here.
#[tactic(auto, unfolding(program::specs::Stored::target_in, crate::specs::Answers::target_write, crate::specs::Answers::done_by))]
fn write_value(rule: Rule, value: Result<Option<i32>, OutOfRange>) -> Write
    ensures { result ≡ done_by (target_in rule) value }
{
    match value {
        Ok(None) => Write::Nothing,
        Ok(Some(z)) => match rule {
            Rule::Set(field, _) | Rule::Combine(field, _, _, _) => Write::Store(field, z),
            Rule::Remote(_, _, _, _) => Write::Nothing,
        },
        Err(OutOfRange) => Write::OutOfRange(field_of(rule)),
    }
}

// An operation on two terms at record u, for a field.
fn combine(
    cells: &Cells<'_>,
    values: &[i64],
    marks: &[u8],
    u: usize,
    codes: &[u64],
    field: u64,
    operator: Operator,
    x: Term,
    y: Term,
    at: Places,
) -> Result<Option<i32>, OutOfRange>
    requires { (u < cells.now.sizes.records) × RuleReaches cells.now.sizes values.now marks.now u codes.now at (Combine field operator x y) }
    ensures { Told cells.now.sizes (cells_in cells.now) values.now marks.now u
        (λ P. RulePlaced P codes.now at (Combine field operator x y)) (λ read. result ≡ evaluated read (operationOn operator (term_in codes.now x) (term_in codes.now y))) }
{
    let first = at.first;
    let second = at.second;
    let a = term::term_value(cells, values, marks, u, codes, x, first);
    let b = term::term_value(cells, values, marks, u, codes, y, second);
    operation::join(operator, a, b)
}

// The expression of a rule at record u.
#[tactic(auto, unfolding(program::specs::Stored::expression_in))]
fn expression(
    cells: &Cells<'_>,
    values: &[i64],
    marks: &[u8],
    u: usize,
    codes: &[u64],
    rule: Rule,
    at: Places,
) -> Result<Option<i32>, OutOfRange>
    requires { (u < cells.now.sizes.records) × RuleReaches cells.now.sizes values.now marks.now u codes.now at rule }
    ensures { Told cells.now.sizes (cells_in cells.now) values.now marks.now u
        (λ P. RulePlaced P codes.now at rule) (λ read. result ≡ evaluated read (expression_in codes.now rule)) }
{
    let first = at.first;
    let second = at.second;
    match rule {
        Rule::Set(_, x) => term::term_value(cells, values, marks, u, codes, x, first),
        Rule::Combine(field, operator, x, y) => combine(
            cells, values, marks, u, codes, field, operator, x, y, at,
        ),
        Rule::Remote(_, _, _, x) => term::term_value(cells, values, marks, u, codes, x, second),
    }
}

// What a rule comes to at record u: its expression where its test holds.
pub fn effect(
    cells: &Cells<'_>,
    values: &[i64],
    marks: &[u8],
    u: usize,
    codes: &[u64],
    located: Located,
) -> Result<Option<i32>, OutOfRange>
    requires { (u < cells.now.sizes.records) × SlotReaches cells.now.sizes values.now marks.now u codes.now located }
    ensures { Told cells.now.sizes (cells_in cells.now) values.now marks.now u
        (λ P. SlotPlaced P codes.now located) (λ read. result ≡ effect_of read (rule_in codes.now located.slot)) }
{
    let slot = located.slot;
    if !term::test_at(cells, values, marks, u, codes, slot.test, located.at.test)? {
        return Ok(None);
    }
    expression(cells, values, marks, u, codes, slot.rule, located.at.rule)
}

// What a rule stores in record u. A remote one is asked for the sums that it forms.
pub fn local_write(
    cells: &Cells<'_>,
    values: &[i64],
    marks: &[u8],
    u: usize,
    codes: &[u64],
    located: Located,
) -> Write
    requires { (u < cells.now.sizes.records) × SlotReaches cells.now.sizes values.now marks.now u codes.now located }
    ensures { DoneFor (target_in located.slot.rule) result
        × Told cells.now.sizes (cells_in cells.now) values.now marks.now u
        (λ P. SlotPlaced P codes.now located) (λ read. result ≡ write_of read (rule_in codes.now located.slot)) }
{
    let rule = located.slot.rule;
    let value = effect(cells, values, marks, u, codes, located);
    write_value(rule, value)
}
