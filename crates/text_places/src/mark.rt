// Tokens that stand for themselves.
ghost use Rattle.std.specs.Prelude.{◌≡◌};
ghost use Rattle.text_places.specs.Place.{mark_byte, code_mark};

use text_words::token::Token;

// `u`, `:=`, `:` and brackets: tokens that stand for themselves.
#[derive(Clone, Copy, Debug, PartialEq, Eq)]
pub enum Mark {
    Own,
    Becomes,
    Colon,
    OpenSquare,
    CloseSquare,
    OpenRound,
    CloseRound,
}

impl Mark {
    // The mark that a token is.
    pub fn of(token: Token) -> Option<Mark>
        ensures { result ≡ code_mark token }
    {
        match token {
            Token::Own => Some(Mark::Own),
            Token::Becomes => Some(Mark::Becomes),
            Token::Colon => Some(Mark::Colon),
            Token::OpenSquare => Some(Mark::OpenSquare),
            Token::CloseSquare => Some(Mark::CloseSquare),
            Token::OpenRound => Some(Mark::OpenRound),
            Token::CloseRound => Some(Mark::CloseRound),
            _ => None,
        }
    }

    // The byte of `u` or of a bracket, which no longer token begins with; `:=` and `:` have none.
    pub fn byte(self) -> Option<u8>
        ensures { result ≡ mark_byte self }
    {
        match self {
            Mark::Own => Some(b'u'),
            Mark::OpenSquare => Some(b'['),
            Mark::CloseSquare => Some(b']'),
            Mark::OpenRound => Some(b'('),
            Mark::CloseRound => Some(b')'),
            Mark::Becomes | Mark::Colon => None,
        }
    }
}
