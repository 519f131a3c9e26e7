// A test of two sides, and none, with what is asked of them.
ghost use Rattle.std.specs.Prelude.{◌≡◌};
ghost use Rattle.text_demands.specs.Demands.{when_parts, always_parts};

use program::rule::{Comparison, Test};
use program::term::Term;
use text_codes::summary::Summary;
use text_rules::line::Checks;

// A test and what is asked of it.
#[derive(Clone, Copy)]
pub struct TestParts {
    pub test: Test,
    pub checks: Checks,
}

// The first side of a test.
#[derive(Clone, Copy)]
pub struct FirstSide {
    pub seen: Summary,
    pub term: Term,
    pub comparison: Comparison,
}

impl TestParts {
    // Of two sides.
    #[tactic(auto, unfolding(text_syntax::specs::Parts::same_kind))]
    pub fn when(first: FirstSide, seen: Summary, second: Term) -> TestParts
        ensures { result ≡ when_parts first seen second }
    {
        let other = first.seen;
        let sides = text_checks::of_expression(other).and(text_checks::of_expression(seen));
        TestParts {
            test: Test::When(first.term, first.comparison, second),
            checks: sides.with_kinds(true, other.reference == seen.reference),
        }
    }

    // No test.
    pub fn always() -> TestParts
        ensures { result ≡ always_parts }
    {
        TestParts {
            test: Test::Always,
            checks: Checks::nothing(),
        }
    }
}
