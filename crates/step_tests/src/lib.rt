// Plain rules: no term of theirs is an expression of several. A step of plain rules, as most are, is done without the codes. So
// `term_value` and `holds` stand beside those of step_expressions, and step_plain beside step_effects: by the general way, which
// hands on Results, a rule at a record took 17 ns and not 2.6 (docs/DECISIONS.md).
#![tactic(auto)]

ghost use Rattle.std.specs.Prelude.{◌≡◌, ◌&&◌, ◌<◌, []};
ghost use Rattle.register.specs.View.{cells_in};
ghost use Rattle.step_terms.specs.Found.{TermReaches, TestReaches};
ghost use Rattle.step_tests.specs.Plain.{is_plain, plain_test, plain_rule, plain_slot, PlainValue, PlainHolds};

use program::location::{Located, Location, Places};
use program::rule::{Comparison, Rule, Test};
use program::term::Term;
use register::cells::Cells;
use step_operations::comparison::compare_readings;
use step_terms::term;

#[tactic(auto, unfolding(crate::specs::Plain::is_plain))]
pub fn is_plain(term: Term) -> bool
    ensures { result ≡ is_plain term }
{
    match term {
        Term::Chain(_) | Term::Number(_) => true,
        Term::Tree(_, _) => false,
    }
}

#[tactic(auto, unfolding(crate::specs::Plain::plain_test))]
pub fn is_plain_test(test: Test) -> bool
    ensures { result ≡ plain_test test }
{
    match test {
        Test::Always => true,
        Test::When(x, _, y) => is_plain(x) && is_plain(y),
    }
}

#[tactic(auto, unfolding(crate::specs::Plain::plain_rule))]
fn is_plain_rule(rule: Rule) -> bool
    ensures { result ≡ plain_rule rule }
{
    match rule {
        Rule::Set(_, x) | Rule::Remote(_, _, _, x) => is_plain(x),
        Rule::Combine(_, _, x, y) => is_plain(x) && is_plain(y),
    }
}

// Whether rules that are plain so far are so with one more.
#[tactic(auto, unfolding(crate::specs::Plain::plain_slot))]
pub fn stay_plain(plain: bool, located: Located) -> bool
    ensures { result ≡ plain && plain_slot located.slot }
{
    plain && is_plain_test(located.slot.test) && is_plain_rule(located.slot.rule)
}

// A plain term at record u.
#[tactic(auto, unfolding(program::specs::Stored::term_in, machine::specs::Value::value))]
pub fn term_value(
    cells: &Cells<'_>,
    values: &[i64],
    marks: &[u8],
    u: usize,
    term: Term,
    at: Location,
) -> Option<i32>
    requires { (u < cells.now.sizes.records) × TermReaches cells.now.sizes values.now marks.now u [] at term }
    ensures { PlainValue cells.now.sizes (cells_in cells.now) values.now marks.now u at term result }
{
    let Term::Number(value) = term else {
        return term::found_at(cells, values, marks, u, at);
    };
    Some(value)
}

// A test of plain terms at record u.
#[tactic(auto, unfolding(program::specs::Stored::test_in, machine::specs::Value::holds))]
pub fn holds(
    cells: &Cells<'_>,
    values: &[i64],
    marks: &[u8],
    u: usize,
    test: Test,
    at: Places,
) -> bool
    requires { (u < cells.now.sizes.records) × TestReaches cells.now.sizes values.now marks.now u [] at test }
    ensures { PlainHolds cells.now.sizes (cells_in cells.now) values.now marks.now u at test result }
{
    match test {
        Test::Always => true,
        Test::When(x, comparison, y) => {
            let first = at.first;
            let second = at.second;
            let left = term_value(cells, values, marks, u, x, first);
            let right = term_value(cells, values, marks, u, y, second);
            compare_readings(left, comparison, right)
        }
    }
}
