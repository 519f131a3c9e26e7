// The lexer: the next token of a line.
ghost use Rattle.std.specs.Prelude.{◌≡◌, ◌≤◌, ◌<◌, length, drop};
ghost use Rattle.text_numerals.specs.Numeral.{number_form};
ghost use Rattle.text_syntax.specs.Lexing.{first_token, number_token};
ghost use Rattle.text_words.specs.Tokens.{sized_first};
ghost use Rattle.text_lexer.specs.Lexeme.{next_place, lexeme};

use chain_text::letters;
use text_words::token::Token;

// A token and the place of the next one. The end of the line and what is no token are tokens here, and no `None`, since the
// readers tell the two apart in one `match`.
#[derive(Clone, Copy)]
pub struct Lexeme {
    pub token: Token,
    pub end: usize,
}

// The number at `at`, if one stands there, and the number of its bytes.
fn number_at(line: &[u8], at: usize) -> Option<(Token, usize)>
    requires { at ≤ length line.now }
    ensures { result ≡ sized_first (number_token (number_form (drop at line.now))) }
{
    let (value, end) = text_numbers::read_number(line, at)?;
    Some((Token::Number(value), end - at))
}

// The token at `at`, if one stands there, and the number of its bytes: where an operand must begin, a minus belongs to a number.
fn first_token(line: &[u8], at: usize, operand: bool) -> Option<(Token, usize)>
    requires { at < length line.now }
    ensures { result ≡ sized_first (first_token operand (drop at line.now)) }
{
    let b = line[at];
    if letters::is_capital(b) {
        return Some((Token::Letter(b), 1));
    }
    if b.is_ascii_digit() | ((b == b'-') & operand) {
        return number_at(line, at);
    }
    text_signs::sign_at(line, at)
}

// The place of the next token, `at` being behind one: spaces that end the line are not free.
pub fn skip_spaces(line: &[u8], at: usize) -> usize
    requires { at ≤ length line.now }
    ensures { result ≡ next_place at (drop at line.now) }
{
    match line[at..].iter().position(|b| *b != b' ') {
        Some(spaces) => at + spaces,
        None => at,
    }
}

// The token at `at`, where an operand must begin or not, and the place of the next one. Behind what is no token the line
// counts as ended.
pub fn next_token(line: &[u8], at: usize, operand: bool) -> Lexeme
    requires { at ≤ length line.now }
    ensures { result ≡ lexeme operand at (drop at line.now) }
{
    let length = line.len();
    if at == length {
        return Lexeme {
            token: Token::LineEnd,
            end: at,
        };
    }
    let Some((token, size)) = first_token(line, at, operand) else {
        return Lexeme {
            token: Token::Unknown,
            end: length,
        };
    };
    Lexeme {
        token,
        end: skip_spaces(line, at + size),
    }
}
