// A local rule of a step at one record.
ghost use Rattle.std.specs.Prelude.{◌≡◌, true, [], ◌+◌, ◌*◌, ◌<◌, length, take};
ghost use Rattle.register.specs.File.{cell_count, cell_index, cells_of_file};
ghost use Rattle.register.specs.Shape.{Limits};
ghost use Rattle.chain.specs.Word.{has_field, column as columnOf};
ghost use Rattle.register.specs.declared.cells.Cell.TheVariants.{WorkedOut};
ghost use Rattle.step_cells.specs.Work.{Room, Put};
ghost use Rattle.step_rules.specs.Ready.{RuleReady, WritesField, Performed, RuleLeaves, PlainLeaves};

use chain::follow;
use program::location::Located;
use register::Sizes;
use register::cells::Cells;
use scratch;
use step_cells;
use step_cells::stop::Offence;
use step_effects::stored;
use step_effects::stored::Write;
use step_plain;

// Stores a value in the working cell of record u and a field: it is worked out, whatever was read for it.
fn store(
    values: &mut [i64],
    marks: &mut [u8],
    sizes: Sizes,
    base: usize,
    u: usize,
    field: u64,
    value: i32,
)
    requires { Limits sizes × (u < sizes.records) × (has_field sizes field ≡ true) × Room base (cell_count sizes) values.old marks.old }
    ensures { Put (base + cell_index sizes u (columnOf sizes field)) (WorkedOut value) values.old marks.old values.new marks.new }
{
    let place = step_cells::place(sizes, base, u, field);
    scratch::put(values, marks, place, integers::widen(value), 2);
}

// What a rule asks for in record u: a value is stored, or the step stops where a sum leaves the range.
fn perform(
    values: &mut [i64],
    marks: &mut [u8],
    sizes: Sizes,
    base: usize,
    u: usize,
    write: Write,
) -> Result<(), Offence>
    requires { Limits sizes × (u < sizes.records) × WritesField sizes write × Room base (cell_count sizes) values.old marks.old }
    ensures { Performed sizes base u write values.old marks.old values.new marks.new result }
{
    match write {
        Write::Nothing => Ok(()),
        Write::Store(field, value) => {
            store(values, marks, sizes, base, u, field, value);
            Ok(())
        }
        Write::OutOfRange(field) => Err(Offence {
            row: u,
            column: follow::column(sizes, field as usize),
        }),
    }
}

// One rule at record u of the register in `out`.
pub fn apply_rule(
    out: &[u8],
    values: &mut [i64],
    marks: &mut [u8],
    sizes: Sizes,
    base: usize,
    u: usize,
    codes: &[u64],
    rule: Located,
) -> Result<(), Offence>
    requires limits { Limits sizes × (length out.now ≡ 12 + 5 * cell_count sizes) × (u < sizes.records) × Room base (cell_count sizes) values.old marks.old }
    requires rule_ready { RuleReady sizes (cells_of_file sizes out.now) (take base values.old) (take base marks.old) codes.now rule }
    ensures { RuleLeaves sizes (cells_of_file sizes out.now) base u codes.now rule
        values.old marks.old values.new marks.new result }
{
    let cells = Cells::of(out, sizes);
    let write = stored::local_write(&cells, &values[..base], &marks[..base], u, codes, rule);
    perform(values, marks, sizes, base, u, write)
}

// The same for a plain rule, which needs no codes.
// It is a way of its own for speed: by the general one a rule at a record took 17 ns and not 2.6 (docs/DECISIONS.md).
pub fn apply_plain(
    out: &[u8],
    values: &mut [i64],
    marks: &mut [u8],
    sizes: Sizes,
    base: usize,
    u: usize,
    rule: Located,
) -> Result<(), Offence>
    requires limits { Limits sizes × (length out.now ≡ 12 + 5 * cell_count sizes) × (u < sizes.records) × Room base (cell_count sizes) values.old marks.old }
    requires rule_ready { RuleReady sizes (cells_of_file sizes out.now) (take base values.old) (take base marks.old) [] rule }
    ensures { PlainLeaves sizes (cells_of_file sizes out.now) base u rule
        values.old marks.old values.new marks.new result }
{
    let cells = Cells::of(out, sizes);
    let write = step_plain::local_write(&cells, &values[..base], &marks[..base], u, rule);
    perform(values, marks, sizes, base, u, write)
}
