// A single reading.
ghost use Rattle.op_read.specs.Reading.{reading};
ghost use Rattle.api_read.specs.Numbers.{read_numbers};
ghost use Rattle.c_api.specs.Answer.{ReadAnswer};

use api_read::reading;

// The reading of a chain at record u: the refusal number, 0 for none. On a refusal the value stays as it was.
pub fn plot_read(file: &[u8], text: &[u8], u: u64, value: &mut i64, answer: &mut [u64; 8]) -> u32
    ensures { ReadAnswer (read_numbers (reading file.now text.now u))
        value.old result value.new answer.new }
{
    let numbers = reading::numbers(op_read::reading(file, text, u));
    if numbers.number == 0 {
        let found = numbers.value;
        *value = found;
    }
    *answer = [numbers.line, 0, 0, 0, 0, 0, numbers.filled, 0];
    numbers.number
}
