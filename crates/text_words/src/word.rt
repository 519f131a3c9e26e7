// Words, by their first byte.
ghost use Rattle.std.specs.Prelude.{◌≡◌, cond, ◌≤◌, ◌<◌, length, drop, None};
ghost use Rattle.text_numerals.specs.Word.{opens_with};
ghost use Rattle.text_syntax.specs.Lexing.{words, fixed_token};
ghost use Rattle.text_words.specs.Tokens.{sized_token, sized_first};

use crate::token;
use crate::token::Token;

// A word that stands at `at`, and the number of its bytes.
#[tactic(auto, unfolding(crate::specs::Tokens::literal_read))]
fn word(line: &[u8], at: usize, bytes: &[u8], token: Token) -> Option<(Token, usize)>
    requires { at ≤ length line.now }
    ensures { result ≡ cond (opens_with bytes.now (drop at line.now)) (sized_token token (length bytes.now)) None }
{
    let end = token::literal(line, at, bytes)?;
    Some((token, end - at))
}

// The word at `at`, if one stands there, and the number of its bytes.
pub fn word_at(line: &[u8], at: usize) -> Option<(Token, usize)>
    requires { at < length line.now }
    ensures { result ≡ sized_first (fixed_token words (drop at line.now)) }
{
    let b = line[at];
    match b {
        b'i' => word(line, at, b"if ", Token::If),
        b'r' => word(line, at, b"remote ", Token::Remote),
        b's' => word(line, at, b"step", Token::Step),
        b'e' => word(line, at, b"end", Token::End),
        b'l' => word(line, at, b"loop ", Token::Loop),
        b'd' => word(line, at, b"done", Token::Done),
        _ => None,
    }
}
