// The limits of what an operation is given: a text over a register, a step of it, and the scratch buffers.
#![tactic(auto)]

ghost use Rattle.std.specs.Prelude.{◌≡◌, ◌&&◌, ◌≤◌, leb};
ghost use Rattle.register.specs.Shape.{Limits};
ghost use Rattle.machine.specs.Run.{scratch, is_short};
ghost use Rattle.op_limits.specs.Admitted.{admitted};
ghost use Rattle.op_limits.specs.Number.{refusal_number, outcome_of};
ghost use Rattle.op_limits.specs.declared.Refusal.TheVariants.{Register};

use register::Sizes;

// Why an operation on a text is refused: the register; a text of more than 8,192 bytes; a line of it; a step that is not there; an
// output of another length than the register; a scratch buffer that is too short.
#[derive(Clone, Copy, Debug, PartialEq, Eq)]
pub enum Refusal {
    Register(register_check::Refusal),
    TextLength,
    Text(text_refusals::Refusal),
    Step,
    Output,
    Scratch,
}

impl Refusal {
    // Document 01's number of a refusal.
    #[tactic(auto, unfolding(crate::specs::Number::refusal_number))]
    pub fn number(self) -> u32
        ensures { result ≡ refusal_number self }
    {
        match self {
            Refusal::Register(refusal) => refusal.number(),
            Refusal::TextLength => 6,
            Refusal::Text(refusal) => refusal.number(),
            Refusal::Step => 17,
            Refusal::Output => 18,
            Refusal::Scratch => 19,
        }
    }
}

impl From<register_check::Refusal> for Refusal {
    ghost from_gives = { λ a b. b ≡ Register a };

    fn from(refusal: register_check::Refusal) -> Refusal {
        Refusal::Register(refusal)
    }
}

// The sizes of a register over which a text is read, or why it is not: the register's refusal, then 6.
#[tactic(auto, unfolding(crate::specs::Admitted::admitted, crate::specs::Number::outcome_of, crate::specs::Number::refusal_number, register_load::specs::Answer::outcome_of, laws::specs::Outcome::after))]
pub fn admit(file: &[u8], text: &[u8]) -> Result<Sizes, Refusal>
    ensures { outcome_of result ≡ admitted file.now text.now }
{
    let sizes = register_load::load(file)?;
    if 8192 < text.len() {
        return Err(Refusal::TextLength);
    }
    Ok(sizes)
}

// Whether a text of this many steps has the step of this number, counted from 1.
pub fn is_step(steps: usize, step: u64) -> bool
    ensures { result ≡ leb 1 step && leb step steps }
{
    1 <= step && step <= steps as u64
}

// Whether one of two scratch buffers (document 01's working arrays) of these lengths is too short for plans of this many lines.
#[tactic(auto, unfolding(machine::specs::Run::is_short, machine::specs::Run::scratch, register::specs::File::width))]
pub fn is_short(sizes: Sizes, lines: usize, values: usize, marks: usize) -> bool
    requires { Limits sizes × (lines ≤ 64) }
    ensures { result ≡ is_short (scratch sizes lines) values marks }
{
    let places = sizes.records * (lines + (sizes.references + sizes.measures) + 1);
    values < places || marks < places
}
