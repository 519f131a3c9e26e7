// Answers of expressions, and operations on them. An expression is unfilled, which is `Ok(None)`, or has a value; or one of its sums
// leaves the range, which is the error.
ghost use Rattle.std.specs.Prelude.{◌≡◌};
ghost use Rattle.integers.specs.Range.{sum_of};
ghost use Rattle.machine.specs.Value.{operate as operateOn};
ghost use Rattle.step_operations.specs.Evaluated.{of_sum, answer_of, joined, OperatesBy, JoinsBy};

use program::code;
use program::rule::Operator;

// From 2 ^ 33 on a number stands for an unfilled answer: no sum of two values reaches it.
const UNFILLED: i64 = 8589934592;

// A sum leaves the range of a value.
#[derive(Clone, Copy, Debug, PartialEq, Eq)]
pub struct OutOfRange;

#[tactic(auto, unfolding(crate::specs::Evaluated::of_sum))]
fn of_sum(sum: Option<i32>) -> Result<Option<i32>, OutOfRange>
    ensures { result ≡ of_sum sum }
{
    Ok(Some(sum.ok_or(OutOfRange)?))
}

// The exact result of an operation, by the kind of its code: a match on an operator made of the kind is not seen through by the
// compiler.
#[tactic(auto, unfolding(program::specs::Code::kind_of, machine::specs::Value::operate))]
fn operate_by(kind: u8, a: i32, b: i32) -> i64
    ensures { OperatesBy kind a b result }
{
    if kind == 2 {
        return a as i64 + b as i64;
    }
    if kind == 3 {
        return a as i64 - b as i64;
    }
    a.min(b) as i64
}

#[tactic(auto, unfolding(program::specs::Code::kind_of))]
pub fn operate(operator: Operator, a: i32, b: i32) -> Option<i32>
    ensures { result ≡ sum_of (operateOn operator a b) }
{
    integers::in_range(operate_by(code::of_operator(operator) as u8, a, b))
}

// A number of 64 bits that stands for an answer, so that operands that wait are copied and tested as one number: it is there for
// speed.
#[tactic(auto, unfolding(integers::specs::Range::in_range, integers::specs::Range::sum_of, crate::specs::Evaluated::of_sum, crate::specs::Evaluated::answer_of))]
pub fn number_of(answer: Result<Option<i32>, OutOfRange>) -> i64
    ensures { answer_of result ≡ answer }
{
    match answer {
        Ok(None) => UNFILLED,
        Ok(Some(value)) => integers::widen(value),
        Err(OutOfRange) => 4294967296,
    }
}

// The answer that a number stands for.
#[tactic(auto, unfolding(crate::specs::Evaluated::answer_of))]
pub fn answer_of(number: i64) -> Result<Option<i32>, OutOfRange>
    ensures { result ≡ answer_of number }
{
    if number < UNFILLED {
        return of_sum(integers::in_range(number));
    }
    Ok(None)
}

// An operation on two answers as numbers, by the kind of its code: a sum out of range stays so, and an unfilled operand makes
// the whole unfilled.
#[tactic(auto, unfolding(integers::specs::Range::sum_of, crate::specs::Evaluated::of_sum, crate::specs::Evaluated::answer_of, crate::specs::Evaluated::joined, machine::specs::Value::both))]
pub fn join_by(kind: u8, x: i64, y: i64) -> i64
    ensures { JoinsBy kind (answer_of x) (answer_of y) (answer_of result) }
{
    let Some(a) = integers::in_range(x) else {
        if x < UNFILLED {
            return x;
        }
        return match integers::in_range(y) {
            Some(_) => x,
            None => y,
        };
    };
    let Some(b) = integers::in_range(y) else {
        return y;
    };
    operate_by(kind, a, b)
}

// An operation on two answers.
#[tactic(auto, unfolding(crate::specs::Evaluated::joined, machine::specs::Value::both))]
pub fn join(
    operator: Operator,
    x: Result<Option<i32>, OutOfRange>,
    y: Result<Option<i32>, OutOfRange>,
) -> Result<Option<i32>, OutOfRange>
    ensures { result ≡ joined operator x y }
{
    let (Some(a), Some(b)) = (x?, y?) else {
        return Ok(None);
    };
    of_sum(operate(operator, a, b))
}
