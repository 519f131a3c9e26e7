// A chain's letters: what is known of them, one after the other from the outside in.
ghost use Rattle.std.specs.Prelude.{◌≡◌, true, ◌+◌, ◌-◌, ◌*◌, ◌^◌, ◌≤◌};
ghost use Rattle.register.specs.Shape.{Limits};
ghost use Rattle.chain_text.specs.Text.{is_capital, letter_field, names};
ghost use Rattle.chain_text.specs.Scan.{step as step_of};

use chain::packed;
use register::Sizes;

// What is known of a chain's letters: its hops packed into one number, the first 16 of them from the outside; whether
// every letter names a field; whether all but the outermost are references; whether there are more than 16.
#[derive(Clone, Copy, Debug, PartialEq, Eq)]
pub struct Letters {
    pub packed: u64,
    pub named: bool,
    pub kinded: bool,
    pub long: bool,
}

impl Letters {
    // Before the first letter.
    pub const NONE: Letters = Letters {
        packed: 0,
        named: true,
        kinded: true,
        long: false,
    };

    // One more letter, with room for `room` more hops.
    pub fn step(self, sizes: Sizes, room: usize, letter: u8) -> Letters
        requires { Limits sizes × (is_capital letter ≡ true) × (room ≤ 16) × (self.packed + 5 ≤ 5 * 8 ^ (16 - room)) }
        ensures { result ≡ step_of sizes room self letter }
    {
        let kinded = self.kinded & ((self.packed == 0) | (letter < b'M'));
        let named = self.named & names_field(sizes, letter);
        if room == 0 {
            Letters {
                named,
                kinded,
                long: true,
                ..self
            }
        } else {
            Letters {
                packed: packed::push(self.packed, field_of(letter)),
                named,
                kinded,
                ..self
            }
        }
    }
}

pub fn is_capital(b: u8) -> bool
    ensures { result ≡ is_capital b }
{
    b.is_ascii_uppercase()
}

// The field of a capital letter.
pub fn field_of(letter: u8) -> u64
    requires { 65 ≤ letter }
    ensures { result ≡ letter_field letter }
{
    if letter < b'M' {
        (letter - b'A') as u64
    } else {
        (letter - b'M') as u64 + 8
    }
}

// Whether a letter names a field of the register.
pub fn names_field(sizes: Sizes, letter: u8) -> bool
    requires { (sizes.references ≤ 8) × (sizes.measures ≤ 8) }
    ensures { result ≡ names sizes letter }
{
    let l = letter as usize;
    if letter < b'M' {
        (b'A' <= letter) & (l < b'A' as usize + sizes.references)
    } else {
        l < b'M' as usize + sizes.measures
    }
}
