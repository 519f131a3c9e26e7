// A reading's answer as numbers.
ghost use Rattle.std.specs.Prelude.{◌≡◌};
ghost use Rattle.op_read.specs.Reading.{reading_outcome};
ghost use Rattle.api_read.specs.Numbers.{read_numbers};

use op_read::ReadingRefusal;

// The numbers of a reading's answer.
#[derive(Clone, Copy, Debug, PartialEq, Eq)]
pub struct ReadNumbers {
    pub number: u32,
    pub line: u64,
    pub value: i64,
    pub filled: u64,
}

impl ReadNumbers {
    // Those of a missing reading.
    const MISSING: ReadNumbers = ReadNumbers {
        number: 0,
        line: 0,
        value: 0,
        filled: 0,
    };
}

#[tactic(auto, unfolding(crate::specs::Numbers::read_numbers, op_read::specs::Reading::reading_outcome))]
pub fn numbers(answer: Result<Option<i32>, ReadingRefusal>) -> ReadNumbers
    ensures { result ≡ read_numbers (reading_outcome answer) }
{
    match answer {
        Ok(None) => ReadNumbers::MISSING,
        Ok(Some(value)) => ReadNumbers {
            value: i64::from(value),
            filled: 1,
            ..ReadNumbers::MISSING
        },
        Err(refusal) => ReadNumbers {
            number: refusal.number(),
            line: refusal.line(),
            ..ReadNumbers::MISSING
        },
    }
}
