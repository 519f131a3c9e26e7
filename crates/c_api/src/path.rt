// The path behind a reading.
ghost use Rattle.op_path.specs.Path.{reading_path};
ghost use Rattle.c_api.specs.PathAnswer.{PathCalled};

use api_path;

// The path behind the reading of a chain at record u: the refusal number, 0 for none. On a refusal the four arrays stay
// as they are.
pub fn plot_path(
    file: &[u8],
    text: &[u8],
    u: u64,
    records: &mut [u64; 16],
    fields: &mut [u8; 16],
    values: &mut [i64; 16],
    marks: &mut [u8; 16],
    answer: &mut [u64; 8],
) -> u32
    ensures { PathCalled (reading_path file.now text.now u) result answer.new
        (record { records = records.old; fields = fields.old; values = values.old; marks = marks.old })
        (record { records = records.new; fields = fields.new; values = values.new; marks = marks.new }) }
{
    match op_path::reading_path(file, text, u) {
        Ok(path) => {
            api_path::fill(&path, records, fields, values, marks);
            *answer = [0, 0, 0, 0, 0, 0, path.count as u64, 0];
            0
        }
        Err(refusal) => {
            *answer = [refusal.line(), 0, 0, 0, 0, 0, 0, 0];
            refusal.number()
        }
    }
}
