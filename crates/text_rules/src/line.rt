// What is read of a line.
ghost use Rattle.std.specs.Prelude.{◌≡◌};
ghost use Rattle.text_rules.specs.LineRead.{all_true, both_checks, with_kinds};

use program::rule::Slot;

// What refusals 9 to 12, 24 and 25 ask: that capitals name fields, that kinds fit, that chains have at most 16 hops, that
// numbers are in the range of sums, that expressions are at most 8 groups deep and have at most 64 operators.
#[derive(Clone, Copy)]
pub struct Checks {
    pub named: bool,
    pub kinded: bool,
    pub short: bool,
    pub ranged: bool,
    pub shallow: bool,
    pub few: bool,
}

impl Checks {
    // Of nothing.
    pub fn nothing() -> Checks
        ensures { result ≡ all_true }
    {
        Checks {
            named: true,
            kinded: true,
            short: true,
            ranged: true,
            shallow: true,
            few: true,
        }
    }

    // Of two parts.
    pub fn and(self, other: Checks) -> Checks
        ensures { result ≡ both_checks self other }
    {
        Checks {
            named: self.named & other.named,
            kinded: self.kinded & other.kinded,
            short: self.short & other.short,
            ranged: self.ranged & other.ranged,
            shallow: self.shallow & other.shallow,
            few: self.few & other.few,
        }
    }

    // And whether a field is named and kinds agree.
    pub fn with_kinds(self, named: bool, kinded: bool) -> Checks
        ensures { result ≡ with_kinds self named kinded }
    {
        Checks {
            named: self.named & named,
            kinded: self.kinded & kinded,
            ..self
        }
    }
}

// A line: a loop's field and whether the register has it, a rule and what is asked of it; or no line of document 01.
// No Option of five forms: who asks for one tells all six apart in one match, which an Option would only nest.
#[derive(Clone, Copy)]
pub enum LineRead {
    Step,
    End,
    Done,
    Loop(u64, bool),
    Rule(Slot, Checks),
    NoForm,
}
