// A step's plan, which grows by readings, each of which is located in it. A plan only grows, so that a line once found stays
// the line of its reading.
#![tactic(auto)]

ghost use Rattle.std.specs.Prelude.{◌≡◌, false};
ghost use Rattle.plan_lines.specs.Held.{facts, HoldsLines};

use plan_lines::Plan;
use program::code;
use program::location::Location;

mod line;

// The largest chain of one hop.
const ONE_HOP: u64 = 16;

// The plan of the open step, which of its lines are wanted, and whether it is full: then a 65th line has been needed, and there
// is no more use for the others.
#[derive(Clone, Copy, Debug, PartialEq, Eq)]
pub struct Open {
    pub plan: Plan,
    pub wanted: [bool; 64],
    pub full: bool,
    pub ghost holds: { full ≡ false → HoldsLines plan (facts plan) },
}

impl Open {
    ghost use Rattle.std.specs.Prelude.{◌∷◌, [], suc, ◌≤◌, ◌<◌, length, get_or};
    ghost use Rattle.chain.specs.Word.{unpack};
    ghost use Rattle.program.specs.Code.{IfChain, EachChain, kind_in, chain_in};
    ghost use Rattle.text_readings.specs.Readings.{code_words, Short, WordPlaced, ReadingAdded, Walked};

    // A step without a rule.
    pub fn empty() -> Open
        ensures { HoldsLines result.plan [] × (result.full ≡ false) }
    {
        Open {
            plan: Plan::empty(),
            wanted: [false; 64],
            full: false,
        }
    }

    // A reading of several hops, which has a line.
    fn add_line(&mut self, chain: u64) -> Location
        requires { (16 < chain) × (length (unpack chain) ≤ 16) }
        ensures { ReadingAdded (unpack chain) self.old self.new result }
    {
        if self.full {
            return Location::Own;
        }
        let Ok(line) = line::line_of(&mut self.plan, chain) else {
            self.full = true;
            return Location::Own;
        };
        self.wanted[line] = true;
        Location::Line(line as u8)
    }

    // A reading. Its line is wanted from now on.
    pub fn add_chain(&mut self, chain: u64) -> Location
        requires { length (unpack chain) ≤ 16 }
        ensures { ReadingAdded (unpack chain) self.old self.new result }
    {
        if chain == 0 {
            return Location::Own;
        }
        if chain <= ONE_HOP {
            return Location::Cell((chain - 1) as u8);
        }
        self.add_line(chain)
    }

    // The code at `at`, if it is a chain.
    fn add_code(&mut self, codes: &mut [u64], at: usize)
        requires { (kind_in (get_or codes.old at 0) ≡ 0 → length (unpack (chain_in (get_or codes.old at 0))) ≤ 16) × (at < length codes.old) }
        ensures { Walked (code_words codes.old at (suc at)) (λ n. n ≤ at) (λ x z. IfChain (WordPlaced x) (get_or z at 0))
            self.old codes.old self.new codes.new }
    {
        let code = codes[at];
        if code::kind(code) != 0 {
            return;
        }
        let found = self.add_chain(code::chain(code));
        codes[at] = code::with_location(code, found);
    }

    // The chains of an expression, by its codes from..to.
    pub fn add_codes(&mut self, codes: &mut [u64], from: u16, to: u16)
        requires { Short (code_words codes.old from to) × (to ≤ length codes.old) }
        ensures { Walked (code_words codes.old from to) (λ n. n ≤ from) (λ x z. EachChain (WordPlaced x) z from to)
            self.old codes.old self.new codes.new }
    {
        for at in from as usize..to as usize {
            self.add_code(codes, at);
        }
    }
}
