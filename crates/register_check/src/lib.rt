// The check of a register's cells, refusals 3 to 5 of document 01.
#![tactic(auto)]

ghost use Rattle.std.specs.Prelude.{◌≡◌, ◌+◌, ◌*◌, ◌≤◌, ◌<◌, ltb};
ghost use Rattle.register.specs.File.{width};
ghost use Rattle.register.specs.Load.{cell_refusal, refusal_at, record_refusal, cells_refusal};
ghost use Rattle.register_check.specs.Number.{refusal_number, check_number};

use register::cells::Cells;

// Refusals 1 to 5 of document 01, in order.
#[derive(Clone, Copy, Debug, PartialEq, Eq)]
pub enum Refusal {
    Length,
    SizeLimit,
    Mark,
    MissingValue,
    Reference,
}

impl Refusal {
    // Document 01's number of a refusal.
    #[tactic(auto, unfolding(crate::specs::Number::refusal_number))]
    pub fn number(self) -> u32
        ensures { result ≡ refusal_number self }
    {
        match self {
            Refusal::Length => 1,
            Refusal::SizeLimit => 2,
            Refusal::Mark => 3,
            Refusal::MissingValue => 4,
            Refusal::Reference => 5,
        }
    }
}

fn check_cell(records: usize, reference: bool, value: i32, mark: u8) -> Result<(), Refusal>
    requires { records ≤ 4096 }
    ensures { check_number result ≡ cell_refusal records reference value mark }
{
    if 2 < mark {
        return Err(Refusal::Mark);
    }
    if mark == 0 {
        if integers::equal(value, 0) {
            return Ok(());
        }
        return Err(Refusal::MissingValue);
    }
    if reference {
        if integers::is_index(records, value) {
            return Ok(());
        }
        return Err(Refusal::Reference);
    }
    Ok(())
}

// The cell of record u and field f, a reference or a measure.
fn check_at(cells: &Cells<'_>, u: usize, f: usize, reference: bool) -> Result<(), Refusal>
    requires { (u < cells.now.sizes.records) × (f < width cells.now.sizes) × (ltb f cells.now.sizes.references ≡ reference) }
    ensures { check_number result ≡ refusal_at cells.now.sizes cells.now.values.now cells.now.marks.now u f }
{
    let j = register::cell_index(cells.sizes, u, f);
    let value = integers::value_at(cells.values, 4 * j);
    check_cell(cells.sizes.records, reference, value, cells.marks[j])
}

// The references, then the measures: a loop each, so that neither asks of a cell which it is.
fn check_record(cells: &Cells<'_>, u: usize) -> Result<(), Refusal>
    requires { u < cells.now.sizes.records }
    ensures { check_number result ≡ record_refusal cells.now.sizes cells.now.values.now cells.now.marks.now u }
{
    let references = cells.sizes.references;
    let fields = references + cells.sizes.measures;
    for f in 0..references {
        check_at(cells, u, f, true)?;
    }
    for f in references..fields {
        check_at(cells, u, f, false)?;
    }
    Ok(())
}

pub fn check_cells(cells: &Cells<'_>) -> Result<(), Refusal>
    ensures { check_number result ≡ cells_refusal cells.now.sizes cells.now.values.now cells.now.marks.now }
{
    for u in 0..cells.sizes.records {
        check_record(cells, u)?;
    }
    Ok(())
}
