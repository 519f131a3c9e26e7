// What is asked of local and remote rules.
ghost use Rattle.std.specs.Prelude.{◌≡◌};
ghost use Rattle.text_demands.specs.Demands.{local_checks, remote_checks};

use program::rule::Sort;
use text_codes::code::TermParts;
use text_codes::summary::Summary;
use text_rules::line::Checks;

// Of `F[u] := X`: whether F is named, and X is of its kind.
#[tactic(auto, unfolding(text_syntax::specs::Parts::same_kind, chain_text::specs::Text::is_reference_letter))]
pub fn local(letter: u8, named: bool, seen: Summary) -> Checks
    ensures { result ≡ local_checks letter named seen }
{
    let reference = letter < b'M';
    text_checks::of_expression(seen).with_kinds(named, reference == seen.reference)
}

// Of `remote F[C]` and a write of X: C names a record, and F and X are of the kinds that the write takes.
#[tactic(auto, unfolding(chain_text::specs::Text::is_reference_letter))]
pub fn remote(sort: Sort, letter: u8, named: bool, parts: TermParts, seen: Summary) -> Checks
    ensures { result ≡ remote_checks sort letter named parts seen }
{
    let kinded = parts.reference & text_checks::sent_kinds(sort, letter < b'M', seen.reference);
    let terms = text_checks::of_target(parts).and(text_checks::of_expression(seen));
    terms.with_kinds(named, kinded)
}
