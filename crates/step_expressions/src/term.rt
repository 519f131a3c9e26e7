// What a term comes to at a record, and whether a test holds there.
ghost use Rattle.std.specs.Prelude.{◌≡◌, ◌<◌};
ghost use Rattle.register.specs.View.{cells_in};
ghost use Rattle.program.specs.Stored.{term_in, test_in};
ghost use Rattle.program.specs.Terms.{TermPlaced, TestPlaced};
ghost use Rattle.step_terms.specs.Found.{Told, TermReaches, TestReaches};
ghost use Rattle.step_operations.specs.Evaluated.{evaluated};
ghost use Rattle.step_operations.specs.Tests.{tested};

use crate::evaluate;
use program::location::{Location, Places};
use program::rule::Test;
use program::term::Term;
use register::cells::Cells;
use step_operations::comparison;
use step_operations::operation::OutOfRange;
use step_terms::term;

// A term at record u, where its chains are found.
#[tactic(auto, unfolding(program::specs::Stored::term_in, machine::specs::Value::value, machine::specs::Value::overflows, step_operations::specs::Evaluated::evaluated))]
pub fn term_value(
    cells: &Cells<'_>,
    values: &[i64],
    marks: &[u8],
    u: usize,
    codes: &[u64],
    term: Term,
    at: Location,
) -> Result<Option<i32>, OutOfRange>
    requires { (u < cells.now.sizes.records) × TermReaches cells.now.sizes values.now marks.now u codes.now at term }
    ensures { Told cells.now.sizes (cells_in cells.now) values.now marks.now u
        (λ P. TermPlaced P codes.now at term) (λ read. result ≡ evaluated read (term_in codes.now term)) }
{
    match term {
        Term::Chain(_) => Ok(term::found_at(cells, values, marks, u, at)),
        Term::Number(value) => Ok(Some(value)),
        Term::Tree(from, to) => evaluate::evaluate(
            cells,
            values,
            marks,
            u,
            codes,
            from as usize,
            to as usize,
        ),
    }
}

// A test at record u.
#[tactic(auto, unfolding(program::specs::Stored::test_in, machine::specs::Value::holds, machine::specs::Local::test_overflows, step_operations::specs::Tests::tested))]
pub fn test_at(
    cells: &Cells<'_>,
    values: &[i64],
    marks: &[u8],
    u: usize,
    codes: &[u64],
    test: Test,
    at: Places,
) -> Result<bool, OutOfRange>
    requires { (u < cells.now.sizes.records) × TestReaches cells.now.sizes values.now marks.now u codes.now at test }
    ensures { Told cells.now.sizes (cells_in cells.now) values.now marks.now u
        (λ P. TestPlaced P codes.now at test) (λ read. result ≡ tested read (test_in codes.now test)) }
{
    match test {
        Test::Always => Ok(true),
        Test::When(x, comparison, y) => {
            let first = at.first;
            let second = at.second;
            let left = term_value(cells, values, marks, u, codes, x, first);
            let right = term_value(cells, values, marks, u, codes, y, second);
            comparison::compare_sides(left, comparison, right)
        }
    }
}
