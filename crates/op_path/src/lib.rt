// The path behind a single reading (M-109), refused exactly where the reading is.
#![tactic(auto)]

ghost use Rattle.op_path.specs.Path.{reading_path, PathAnswers};

use chain_path::Path;
use op_read::ReadingRefusal;
use register::cells::Cells;

// The path behind the reading of a chain at record u, or why it is refused.
pub fn reading_path(file: &[u8], text: &[u8], u: u64) -> Result<Path, ReadingRefusal>
    ensures { PathAnswers (reading_path file.now text.now u) result }
{
    let sizes = register_load::load(file)?;
    let chain = op_read::chain_of(text, sizes)?;
    if sizes.records as u64 <= u {
        return Err(ReadingRefusal::Record);
    }
    let cells = Cells::of(file, sizes);
    Ok(Path::at_record(&cells, chain, u as usize))
}
