// Tokens as the readers answer them, and words, which stand exactly as document 01 shows them.
ghost use Rattle.std.specs.Prelude.{◌≡◌, ◌≤◌, length, drop};
ghost use Rattle.text_words.specs.Tokens.{literal_read};

use program::rule::{Comparison, Operator, Sort};

// A word; `u`; a capital; a number, capped as its digits are; `:=`, `:`; `<?=` or `+=`; an operator; `<`, `==` or `!=`;
// brackets; what is no token; and the end of the line.
#[derive(Clone, Copy)]
pub enum Token {
    Step,
    End,
    Done,
    Loop,
    If,
    Remote,
    Own,
    Letter(u8),
    Number(i64),
    Becomes,
    Colon,
    Write(Sort),
    Operator(Operator),
    Compared(Comparison),
    OpenSquare,
    CloseSquare,
    OpenRound,
    CloseRound,
    Unknown,
    LineEnd,
}

// The place behind a word that stands at `at`.
#[tactic(auto, using(crate::proofs::Words::opens_from), unfolding(crate::specs::Tokens::literal_read))]
pub fn literal(line: &[u8], at: usize, word: &[u8]) -> Option<usize>
    requires { at ≤ length line.now }
    ensures { result ≡ literal_read at word.now (drop at line.now) }
{
    if !line[at..].starts_with(word) {
        return None;
    }
    Some(at + word.len())
}
