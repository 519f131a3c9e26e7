// A single chain from its text, and its reading at a record.
#![tactic(auto)]

ghost use Rattle.std.specs.Prelude.{◌≡◌};
ghost use Rattle.register.specs.Shape.{Limits};
ghost use Rattle.chain_text.specs.Text.{form};
ghost use Rattle.op_read.specs.declared.ReadingRefusal.TheVariants.{Register as BadRegister, Chain as BadChain};
ghost use Rattle.op_read.specs.Reading.{word_of_form, reading as reading_of, chain_outcome, reading_outcome, chain_refusal_number, refusal_number, refusal_line, judged_of};

use chain::follow;
use chain_text::letters::Letters;
use chain_text::text;
use register::Sizes;
use register::cells::Cells;

// Refusals 7, 9, 10 and 11 of document 01, in order.
#[derive(Clone, Copy, Debug, PartialEq, Eq)]
pub enum Refusal {
    Form,
    Field,
    Kind,
    Hops,
}

impl Refusal {
    // Document 01's number of a refusal.
    #[tactic(auto, unfolding(crate::specs::Reading::chain_refusal_number))]
    pub fn number(self) -> u32
        ensures { result ≡ chain_refusal_number self }
    {
        match self {
            Refusal::Form => 7,
            Refusal::Field => 9,
            Refusal::Kind => 10,
            Refusal::Hops => 11,
        }
    }
}

// Why a reading is refused: by the register, by the chain, or by the record number.
#[derive(Clone, Copy, Debug, PartialEq, Eq)]
pub enum ReadingRefusal {
    Register(register_check::Refusal),
    Chain(Refusal),
    Record,
}

impl ReadingRefusal {
    // Document 01's number of a refusal.
    #[tactic(auto, unfolding(crate::specs::Reading::refusal_number))]
    pub fn number(self) -> u32
        ensures { result ≡ refusal_number self }
    {
        match self {
            ReadingRefusal::Register(refusal) => refusal.number(),
            ReadingRefusal::Chain(refusal) => refusal.number(),
            ReadingRefusal::Record => 16,
        }
    }

    // The line that it names, 0 for none.
    #[tactic(auto, unfolding(crate::specs::Reading::refusal_line))]
    pub fn line(self) -> u64
        ensures { result ≡ refusal_line self }
    {
        match self {
            ReadingRefusal::Chain(_) => 1,
            _ => 0,
        }
    }
}

impl From<register_check::Refusal> for ReadingRefusal {
    ghost from_gives = { λ r e. e ≡ BadRegister r };

    fn from(refusal: register_check::Refusal) -> ReadingRefusal {
        ReadingRefusal::Register(refusal)
    }
}

impl From<Refusal> for ReadingRefusal {
    ghost from_gives = { λ r e. e ≡ BadChain r };

    fn from(refusal: Refusal) -> ReadingRefusal {
        ReadingRefusal::Chain(refusal)
    }
}

#[tactic(auto, unfolding(crate::specs::Reading::judged_of))]
fn judged(letters: Letters) -> Result<u64, Refusal>
    ensures { result ≡ judged_of letters }
{
    if !letters.named {
        return Err(Refusal::Field);
    }
    if !letters.kinded {
        return Err(Refusal::Kind);
    }
    if letters.long {
        return Err(Refusal::Hops);
    }
    Ok(letters.packed)
}

// The packed chain whose text this is, or why it is refused.
pub fn chain_of(text: &[u8], sizes: Sizes) -> Result<u64, Refusal>
    requires { Limits sizes }
    ensures { chain_outcome result ≡ word_of_form sizes (form text.now) }
{
    let Some((letters, end)) = text::scan(text, 0, sizes) else {
        return Err(Refusal::Form);
    };
    if end == text.len() {
        judged(letters)
    } else {
        Err(Refusal::Form)
    }
}

// Document 01's single reading: what a chain reads at record u, or why it is refused.
pub fn reading(file: &[u8], text: &[u8], u: u64) -> Result<Option<i32>, ReadingRefusal>
    ensures { reading_outcome result ≡ reading_of file.now text.now u }
{
    let sizes = register_load::load(file)?;
    let chain = chain_of(text, sizes)?;
    if sizes.records as u64 <= u {
        return Err(ReadingRefusal::Record);
    }
    let cells = Cells::of(file, sizes);
    Ok(follow::follow(&cells, chain, u as usize))
}
