// Single tokens of a line, and the place behind them.
ghost use Rattle.std.specs.Prelude.{◌≡◌, false, ◌≤◌, length};
ghost use Rattle.text_places.specs.Place.{tokens_from};
ghost use Rattle.text_places.specs.Word.{LetterAt, PassesWrite, PassesComparison, PassesAssigned, is_empty};

use crate::mark::Mark;
use crate::place;
use chain_text::letters;
use program::rule::{Comparison, Sort};
use text_lexer::lexer;
use text_words::token::Token;

// A capital and the place behind it. It is one byte and needs no lexer.
pub fn letter(line: &[u8], at: usize) -> Option<(u8, usize)>
    requires { at ≤ length line.now }
    ensures { LetterAt line.now at result }
{
    let b = *line.get(at)?;
    if !letters::is_capital(b) {
        return None;
    }
    Some((b, lexer::skip_spaces(line, at + 1)))
}

// `<?=` or `+=` and the place behind it.
pub fn write(line: &[u8], at: usize) -> Option<(Sort, usize)>
    requires { at ≤ length line.now }
    ensures { PassesWrite line.now at result }
{
    let read = lexer::next_token(line, at, false);
    let Token::Write(sort) = read.token else {
        return None;
    };
    Some((sort, read.end))
}

// `<`, `==` or `!=` and the place behind it.
pub fn comparison(line: &[u8], at: usize) -> Option<(Comparison, usize)>
    requires { at ≤ length line.now }
    ensures { PassesComparison line.now at result }
{
    let read = lexer::next_token(line, at, false);
    let Token::Compared(comparison) = read.token else {
        return None;
    };
    Some((comparison, read.end))
}

// The place behind `[u] :=`, which follows the letter of a field.
pub fn assigned(line: &[u8], at: usize) -> Option<usize>
    requires { at ≤ length line.now }
    ensures { PassesAssigned line.now at result }
{
    let Some(inner) = place::mark(line, at, false, Mark::OpenSquare) else {
        return None;
    };
    let Some(behind) = place::mark(line, inner, false, Mark::Own) else {
        return None;
    };
    let Some(end) = place::mark(line, behind, false, Mark::CloseSquare) else {
        return None;
    };
    place::mark(line, end, false, Mark::Becomes)
}

// Whether the line ends here.
#[tactic(auto, using(crate::proofs::Words::ends_at))]
pub fn ends(line: &[u8], at: usize) -> bool
    requires { at ≤ length line.now }
    ensures { result ≡ is_empty (tokens_from false line.now at) }
{
    at == line.len()
}
