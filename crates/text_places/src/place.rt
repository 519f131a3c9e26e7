// Single tokens of a line, and the place behind them.
ghost use Rattle.std.specs.Prelude.{◌≡◌, ◌≤◌, length};
ghost use Rattle.text_syntax.specs.Lexing.{operand_behind};
ghost use Rattle.text_places.specs.Place.{mark_token, Passes, PassesOperator};

use crate::mark::Mark;
use chain_text::text;
use program::rule::Operator;
use text_lexer::lexer;
use text_words::token::Token;

// A mark at `at` by the lexer, which takes the longer one of `:=` and `:`.
fn lexed_mark(line: &[u8], at: usize, due: bool, mark: Mark) -> Option<usize>
    requires { at ≤ length line.now }
    ensures { Passes due (operand_behind (mark_token mark)) (mark_token mark) line.now at result }
{
    let read = lexer::next_token(line, at, due);
    if Mark::of(read.token) != Some(mark) {
        return None;
    }
    Some(read.end)
}

// The place behind a mark at `at`, where an operand is due or not. What is one byte needs no lexer.
pub fn mark(line: &[u8], at: usize, due: bool, mark: Mark) -> Option<usize>
    requires { at ≤ length line.now }
    ensures { Passes due (operand_behind (mark_token mark)) (mark_token mark) line.now at result }
{
    let Some(byte) = mark.byte() else {
        return lexed_mark(line, at, due, mark);
    };
    if !text::starts_with(line, at, byte) {
        return None;
    }
    Some(lexer::skip_spaces(line, at + 1))
}

// An operator and the place behind it. `write` and `comparison` of `word` differ from this in one pattern: one function over a
// closure, with what it promises of the closure, would be longer than the three.
pub fn operator(line: &[u8], at: usize) -> Option<(Operator, usize)>
    requires { at ≤ length line.now }
    ensures { PassesOperator line.now at result }
{
    let read = lexer::next_token(line, at, false);
    let Token::Operator(sign) = read.token else {
        return None;
    };
    Some((sign, read.end))
}
