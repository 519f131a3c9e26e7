// The terms of a line: chains and numbers.
ghost use Rattle.std.specs.Prelude.{◌≡◌, true, ◌≤◌, ◌<◌, length};
ghost use Rattle.register.specs.Shape.{Limits};
ghost use Rattle.integers.specs.Range.{sum_of};
ghost use Rattle.text_terms.specs.Chain.{NoChain};
ghost use Rattle.text_terms.specs.Term.{chain_parts, plain_parts, number_parts, ChainPartsAt, TermAt};

use crate::chains;
use crate::chains::Link;
use chain_text::letters::Letters;
use program::code;
use register::Sizes;
use text_codes::code::TermParts;
use text_lexer::lexer;
use text_places::mark::Mark;
use text_places::place;
use text_words::token::Token;

fn chain_parts(letters: Letters, reference: bool) -> TermParts
    requires { letters.packed < 9007199254740992 }
    ensures { result ≡ chain_parts letters reference }
{
    TermParts {
        code: code::of_chain(letters.packed),
        named: letters.named,
        kinded: letters.kinded,
        reference,
        short: !letters.long,
        ranged: true,
    }
}

// A number, in range or not.
fn plain_parts(number: i32, ranged: bool) -> TermParts
    ensures { result ≡ plain_parts number ranged }
{
    TermParts {
        code: code::of_number(number),
        named: true,
        kinded: true,
        reference: false,
        short: true,
        ranged,
    }
}

fn number_parts(value: i64) -> TermParts
    ensures { result ≡ number_parts (sum_of value) }
{
    match integers::in_range(value) {
        Some(number) => plain_parts(number, true),
        None => plain_parts(0, false),
    }
}

// The number at `at`, where no chain stands.
fn number_term(line: &[u8], at: usize, sizes: Sizes) -> Option<(TermParts, usize)>
    requires { (at ≤ length line.now) × NoChain true line.now at }
    ensures { TermAt sizes line.now at result }
{
    let read = lexer::next_token(line, at, true);
    let Token::Number(value) = read.token else {
        return None;
    };
    Some((number_parts(value), read.end))
}

// The chain at `at`, where an operand is due or not, as a term and the place behind it.
pub fn read_chain(line: &[u8], at: usize, due: bool, sizes: Sizes) -> Option<(TermParts, usize)>
    requires { Limits sizes × (at ≤ length line.now) }
    ensures { ChainPartsAt sizes due line.now at result }
{
    let start = Letters {
        packed: 0,
        named: true,
        kinded: true,
        long: false,
    };
    match chains::first_link(line, at, due)? {
        Link::Own(end) => Some((chain_parts(start, true), end)),
        Link::Letter(letter, end) => {
            let next = start.step(sizes, 16, letter);
            let (letters, closing) = chains::read(line, end, sizes, next, 15)?;
            let last = place::mark(line, closing, false, Mark::CloseSquare)?;
            Some((chain_parts(letters, letter < b'M'), last))
        }
    }
}

// The term at `at` and the place behind it.
pub fn read_term(line: &[u8], at: usize, sizes: Sizes) -> Option<(TermParts, usize)>
    requires { Limits sizes × (at ≤ length line.now) }
    ensures { TermAt sizes line.now at result }
{
    if let Some(chain) = read_chain(line, at, true, sizes) {
        return Some(chain);
    }
    number_term(line, at, sizes)
}
