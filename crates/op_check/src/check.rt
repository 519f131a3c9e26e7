// Document 01's check of a rules text: the register first, then the text.
ghost use Rattle.std.specs.Prelude.{◌≡◌, length};
ghost use Rattle.text_rules.specs.Text.{check as checkOf};
ghost use Rattle.op_limits.specs.declared.Refusal.TheVariants.{Text};
ghost use Rattle.op_check.specs.Checked.{Answers, Checks};

use op_limits;
use op_limits::Refusal;
use program::Program;
use text_reader;
use text_rules::scope::Scope;

// Why a text over a register is refused, and at which line of it, 0 for none.
#[derive(Clone, Copy, Debug, PartialEq, Eq)]
pub struct Refused {
    pub refusal: Refusal,
    pub line: usize,
}

impl From<Refusal> for Refused {
    ghost from_gives = { λ a b. b ≡ record { refusal = a; line = 0 } };

    fn from(refusal: Refusal) -> Refused {
        Refused { refusal, line: 0 }
    }
}

impl From<text_reader::Refused> for Refused {
    ghost from_gives = { λ a b. b ≡ record { refusal = Text a.refusal; line = a.line } };

    fn from(refused: text_reader::Refused) -> Refused {
        Refused {
            refusal: Refusal::Text(refused.refusal),
            line: refused.line,
        }
    }
}

// The program of a text over a register, or why either is refused; the codes of its expressions are in the lent array.
pub fn read(file: &[u8], text: &[u8], codes: &mut [u64]) -> Result<Program, Refused>
    requires { length codes.old ≡ 8192 }
    ensures { Answers codes.new (checkOf file.now text.now) result }
{
    let sizes = op_limits::admit(file, text)?;
    let program = text_reader::read_lines(text, Scope { sizes }, codes)?;
    Ok(program)
}

// The same for who has no use for the codes.
pub fn check(file: &[u8], text: &[u8]) -> Result<Program, Refused>
    ensures { Checks (checkOf file.now text.now) result }
{
    let mut codes = [0u64; 8192];
    read(file, text, &mut codes)
}
