// Codes of expressions, each one number of an array (specs Code).
ghost use Rattle.std.specs.Prelude.{◌≡◌, ◌<◌};
ghost use Rattle.program.specs.Code.{kind_in, location_in, chain_in, number_in, kind_of, chain_code, number_code, Numbered, location_number, with_location};

use crate::location::Location;
use crate::rule::Operator;

// The kind of a code: 0 a chain, 1 a number, from 2 on an operator. It stays a number: the runs branch on it for each code, and
// codes are numbers of an array.
#[tactic(auto, unfolding(crate::specs::Code::kind_in))]
pub fn kind(code: u64) -> u8
    ensures { result ≡ kind_in code }
{
    (code % 8) as u8
}

// Where the chain of a code is found.
#[tactic(auto, unfolding(crate::specs::Code::location_in, crate::specs::Code::location_at))]
pub fn location(code: u64) -> Location
    ensures { result ≡ location_in code }
{
    match (code / 8 % 256) as u8 {
        0 => Location::Own,
        number @ 1..=16 => Location::Cell(number - 1),
        number => Location::Line(number - 17),
    }
}

// The chain of a code, packed.
#[tactic(auto, unfolding(crate::specs::Code::chain_in))]
pub fn chain(code: u64) -> u64
    ensures { result ≡ chain_in code }
{
    code / 2048
}

// The number of a code.
pub fn number(code: u64) -> i32
    ensures { result ≡ number_in code }
{
    integers::signed((code / 8 % 4294967296) as u32)
}

#[tactic(auto, unfolding(crate::specs::Code::chain_code))]
pub fn of_chain(packed: u64) -> u64
    requires { packed < 9007199254740992 }
    ensures { result ≡ chain_code packed }
{
    2048 * packed
}

pub fn of_number(number: i32) -> u64
    ensures { result ≡ number_code number }
{
    8 * integers::unsigned(number) as u64 + 1
}

#[tactic(auto, unfolding(crate::specs::Code::kind_of))]
pub fn of_operator(operator: Operator) -> u64
    ensures { result ≡ kind_of operator }
{
    operator as u64
}

// A location as a number.
#[tactic(auto, unfolding(crate::specs::Code::location_number))]
fn location_number(location: Location) -> u8
    requires { Numbered location }
    ensures { result ≡ location_number location }
{
    match location {
        Location::Own => 0,
        Location::Cell(field) => field + 1,
        Location::Line(line) => line + 17,
    }
}

// A code whose chain is found at a location.
#[tactic(auto, unfolding(crate::specs::Code::with_location))]
pub fn with_location(code: u64, location: Location) -> u64
    requires { Numbered location }
    ensures { result ≡ with_location code location }
{
    code % 8 + 8 * (location_number(location) as u64) + 2048 * (code / 2048)
}
