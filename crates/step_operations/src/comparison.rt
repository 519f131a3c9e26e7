// The comparisons of a test, on values, on readings and on answers.
ghost use Rattle.std.specs.Prelude.{◌≡◌};
ghost use Rattle.machine.specs.Value.{compare as compareOf, compare_readings};
ghost use Rattle.step_operations.specs.Tests.{compared};

use crate::operation::OutOfRange;
use program::rule::Comparison;

#[tactic(auto, unfolding(machine::specs::Value::compare))]
fn compare(comparison: Comparison, a: i32, b: i32) -> bool
    ensures { result ≡ compareOf comparison a b }
{
    match comparison {
        Comparison::Less => integers::less(a, b),
        Comparison::Equal => integers::equal(a, b),
        Comparison::Unequal => !integers::equal(a, b),
    }
}

// Two sides: an unfilled one never holds.
#[tactic(auto, unfolding(machine::specs::Value::compare_readings, machine::specs::Value::both))]
pub fn compare_readings(x: Option<i32>, comparison: Comparison, y: Option<i32>) -> bool
    ensures { result ≡ compare_readings comparison x y }
{
    let (Some(a), Some(b)) = (x, y) else {
        return false;
    };
    compare(comparison, a, b)
}

// Two answers as sides: a sum out of range is told even where the other side is unfilled.
#[tactic(auto, unfolding(crate::specs::Tests::compared))]
pub fn compare_sides(
    x: Result<Option<i32>, OutOfRange>,
    comparison: Comparison,
    y: Result<Option<i32>, OutOfRange>,
) -> Result<bool, OutOfRange>
    ensures { result ≡ compared comparison x y }
{
    Ok(compare_readings(x?, comparison, y?))
}
