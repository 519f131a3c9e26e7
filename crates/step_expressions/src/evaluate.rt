// The evaluation of codes.
ghost use Rattle.std.specs.Prelude.{◌≡◌, ◌<◌};
ghost use Rattle.register.specs.View.{cells_in};
ghost use Rattle.program.specs.Code.{IfChain, EachChain, tree_in};
ghost use Rattle.step_terms.specs.Found.{Reaches, Told, TreeReaches};
ghost use Rattle.step_operations.specs.Evaluated.{answer_of, evaluated};
ghost use Rattle.step_expressions.specs.Codes.{term_at};

use program::code;
use register::cells::Cells;
use step_operations::operation;
use step_operations::operation::OutOfRange;
use step_terms::term;

// A chain or a number at record u, as the number of an answer.
#[tactic(auto, unfolding(crate::specs::Codes::term_at))]
fn term_at(cells: &Cells<'_>, values: &[i64], marks: &[u8], u: usize, code: u64) -> i64
    requires { (u < cells.now.sizes.records) × IfChain (λ at w. Reaches cells.now.sizes values.now marks.now u at) code }
    ensures { answer_of result ≡ term_at cells.now.sizes (cells_in cells.now) values.now marks.now u code }
{
    if code::kind(code) == 0 {
        let location = code::location(code);
        let reading = term::found_at(cells, values, marks, u, location);
        return operation::number_of(Ok(reading));
    }
    integers::widen(code::number(code))
}

// The expression whose codes are those from..to: an operand waits until what follows it is worked out. Each that waits has an
// operator to come, so that 64 can wait (25). The array and its count stand alone: a struct of both would have this loop as its only user.
pub fn evaluate(
    cells: &Cells<'_>,
    values: &[i64],
    marks: &[u8],
    u: usize,
    codes: &[u64],
    from: usize,
    to: usize,
) -> Result<Option<i32>, OutOfRange>
    requires { (u < cells.now.sizes.records) × TreeReaches cells.now.sizes values.now marks.now u codes.now from to }
    ensures { Told cells.now.sizes (cells_in cells.now) values.now marks.now u
        (λ P. EachChain P codes.now from to) (λ read. result ≡ evaluated read (tree_in codes.now from to)) }
{
    let mut waiting = [0i64; 64];
    let mut count = 0;
    let mut value = term_at(cells, values, marks, u, codes[from]);
    for at in from + 1..to {
        let code = codes[at];
        let kind = code::kind(code);
        if 1 < kind {
            count -= 1;
            let x = waiting[count];
            value = operation::join_by(kind, x, value);
        } else {
            waiting[count] = value;
            count += 1;
            value = term_at(cells, values, marks, u, code);
        }
    }
    operation::answer_of(value)
}
