// The check of a rules text.
ghost use Rattle.text_rules.specs.Text.{check};
ghost use Rattle.c_api.specs.Answer.{check_numbers, CheckAnswer};

// Whether a text passes over a register: the refusal number, 0 for none.
pub fn plot_check(file: &[u8], text: &[u8], answer: &mut [u64; 8]) -> u32
    ensures { CheckAnswer (check_numbers (check file.now text.now)) result answer.new }
{
    match op_check::check::check(file, text) {
        Ok(program) => {
            let steps = program.steps;
            let lines = program.lines;
            *answer = [0, 0, 0, 0, 0, 0, steps as u64, lines as u64];
            0
        }
        Err(refused) => {
            *answer = [refused.line as u64, 0, 0, 0, 0, 0, 0, 0];
            refused.refusal.number()
        }
    }
}
