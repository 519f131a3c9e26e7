// What 9 to 12, 24 and 25 ask of an expression, gathered from left to right.
ghost use Rattle.std.specs.Prelude.{◌≡◌, ◌<◌};
ghost use Rattle.text_syntax.specs.Flat.{empty, merged, with_operator};
ghost use Rattle.text_syntax.specs.Grammar.{is_sum};
ghost use Rattle.text_codes.specs.Summary.{summary_of, term_summary};

use crate::code::TermParts;
use program::rule::Operator;

// Whether all letters name fields, chains go over references, a reference or a measure is held, chains are short, numbers
// are in range; the groups around groups, and the operators.
#[derive(Clone, Copy)]
pub struct Summary {
    pub named: bool,
    pub kinded: bool,
    pub reference: bool,
    pub measure: bool,
    pub short: bool,
    pub ranged: bool,
    pub depth: usize,
    pub operators: usize,
}

// `+`, `-`: "`+`, `-` and `+=` take measures only".
#[tactic(auto, unfolding(text_syntax::specs::Grammar::is_sum))]
pub fn is_sum(sign: Operator) -> bool
    ensures { result ≡ is_sum sign }
{
    match sign {
        Operator::Plus | Operator::Minus => true,
        Operator::Smaller => false,
    }
}

impl Summary {
    // Of nothing yet.
    #[tactic(auto, unfolding(text_syntax::specs::Flat::empty))]
    pub fn nothing() -> Summary
        ensures { summary_of result ≡ empty }
    {
        Summary {
            named: true,
            kinded: true,
            reference: false,
            measure: false,
            short: true,
            ranged: true,
            depth: 0,
            operators: 0,
        }
    }

    // With a term that stands in `deep` groups.
    #[tactic(auto, unfolding(text_syntax::specs::Flat::merged))]
    pub fn with_term(self, deep: usize, parts: TermParts) -> Summary
        ensures { summary_of result ≡ merged deep (summary_of self) (term_summary parts) }
    {
        Summary {
            named: self.named & parts.named,
            kinded: self.kinded & parts.kinded,
            reference: self.reference | parts.reference,
            measure: self.measure | !parts.reference,
            short: self.short & parts.short,
            ranged: self.ranged & parts.ranged,
            depth: self.depth.max(deep),
            operators: self.operators,
        }
    }

    // With an operator.
    #[tactic(auto, unfolding(text_syntax::specs::Flat::with_operator))]
    pub fn with_operator(self, sign: Operator) -> Summary
        requires { self.operators < 18446744073709551615 }
        ensures { summary_of result ≡ with_operator sign (summary_of self) }
    {
        Summary {
            measure: self.measure | is_sum(sign),
            operators: self.operators + 1,
            ..self
        }
    }
}
