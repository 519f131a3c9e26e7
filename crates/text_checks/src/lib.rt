// What 9 to 12, 24 and 25 ask of the parts of a rule. These are functions, since a method may stand only in the crate of its
// type, and what is asked (`Checks`) and what it is asked of are types of other crates.
#![tactic(auto)]

ghost use Rattle.std.specs.Prelude.{◌≡◌};
ghost use Rattle.text_checks.specs.Checks.{summary_checks, term_checks, sent_kinds};

use program::rule::Sort;
use text_codes::code::TermParts;
use text_codes::summary::Summary;
use text_rules::line::Checks;

// Of an expression: its chains go over references and its terms have one kind (10), it is at most 8 groups deep (24) and has
// at most 64 operators (25).
pub fn of_expression(seen: Summary) -> Checks
    ensures { result ≡ summary_checks seen }
{
    Checks {
        named: seen.named,
        kinded: seen.kinded & !(seen.reference & seen.measure),
        short: seen.short,
        ranged: seen.ranged,
        shallow: seen.depth <= 8,
        few: seen.operators <= 64,
    }
}

// Of the chain in a remote target.
pub fn of_target(parts: TermParts) -> Checks
    ensures { result ≡ term_checks parts }
{
    Checks {
        named: parts.named,
        kinded: parts.kinded,
        short: parts.short,
        ranged: parts.ranged,
        ..Checks::nothing()
    }
}

// Whether a field and an expression are of the kinds that a sort takes: "`+=` take measures only".
#[tactic(auto, unfolding(crate::specs::Checks::sent_kinds, text_syntax::specs::Parts::same_kind))]
pub fn sent_kinds(sort: Sort, field: bool, amount: bool) -> bool
    ensures { result ≡ sent_kinds sort field amount }
{
    match sort {
        Sort::Least => field == amount,
        Sort::Total => !field & !amount,
    }
}
