// The signs of a line, and its words, by their first byte.
#![tactic(auto)]

ghost use Rattle.std.specs.Prelude.{◌≡◌, cond, ◌∷◌, ◌++◌, ◌+◌, ◌≤◌, ◌<◌, length, drop};
ghost use Rattle.chain_text.specs.Scan.{starts_with};
ghost use Rattle.text_syntax.specs.Lexing.{words, signs, fixed_token};
ghost use Rattle.text_words.specs.Tokens.{sized_token, sized_first};

use chain_text::text;
use program::rule::{Comparison, Operator, Sort};
use text_words::token::Token;
use text_words::word;

// A sign of two bytes where `=` stands at `at`, else what its first byte is alone.
fn longer(
    line: &[u8],
    at: usize,
    long: Token,
    short: Option<(Token, usize)>,
) -> Option<(Token, usize)>
    ensures { result ≡ cond (starts_with 61 (drop at line.now)) (sized_token long 2) short }
{
    if text::starts_with(line, at, b'=') {
        return Some((long, 2));
    }
    short
}

// `<?=`, `<?` or `<`, of which the first byte stands before `at`.
#[tactic(auto, using(crate::proofs::Signs::less_alone, crate::proofs::Signs::less_least, crate::proofs::Signs::less_smaller))]
fn less_at(line: &[u8], at: usize) -> Option<(Token, usize)>
    requires { at ≤ length line.now }
    ensures { result ≡ sized_first (fixed_token signs (60 ∷ drop at line.now)) }
{
    if !text::starts_with(line, at, b'?') {
        return Some((Token::Compared(Comparison::Less), 1));
    }
    if text::starts_with(line, at + 1, b'=') {
        return Some((Token::Write(Sort::Least), 3));
    }
    Some((Token::Operator(Operator::Smaller), 2))
}

// The sign or word at `at`, if one stands there, and the number of its bytes.
pub fn sign_at(line: &[u8], at: usize) -> Option<(Token, usize)>
    requires { at < length line.now }
    ensures { result ≡ sized_first (fixed_token (words ++ signs) (drop at line.now)) }
{
    let b = line[at];
    match b {
        b'u' => Some((Token::Own, 1)),
        b'[' => Some((Token::OpenSquare, 1)),
        b']' => Some((Token::CloseSquare, 1)),
        b'(' => Some((Token::OpenRound, 1)),
        b')' => Some((Token::CloseRound, 1)),
        b'-' => Some((Token::Operator(Operator::Minus), 1)),
        b':' => longer(line, at + 1, Token::Becomes, Some((Token::Colon, 1))),
        b'+' => longer(
            line,
            at + 1,
            Token::Write(Sort::Total),
            Some((Token::Operator(Operator::Plus), 1)),
        ),
        b'=' => longer(line, at + 1, Token::Compared(Comparison::Equal), None),
        b'!' => longer(line, at + 1, Token::Compared(Comparison::Unequal), None),
        b'<' => less_at(line, at + 1),
        _ => word::word_at(line, at),
    }
}
