// The passes of a loop: the column of its field as a pass began, kept in the scratch buffers from place `at` on, and the step
// that comes next.
#![tactic(auto)]

ghost use Rattle.std.specs.Prelude.{◌≡◌, true, cond, ◌+◌, ◌*◌, ◌<◌, length};
ghost use Rattle.register.specs.View.{cells_in};
ghost use Rattle.register.specs.File.{cell_count, cells_of_file};
ghost use Rattle.register.specs.Shape.{Limits};
ghost use Rattle.chain.specs.Word.{has_field};
ghost use Rattle.program.specs.Passed.{SettingPasses};
ghost use Rattle.machine.specs.Run.{begins};
ghost use Rattle.run_loop.specs.Column.{Space, HasColumn, SameAs, HasPass, Entered, NextIs};

use chain::follow;
use program::setting::Setting;
use register::Sizes;
use register::cells::Cells;
use scratch;
use scratch::column;

// Whether the column of a field is as it was kept: the same is read, value and whether filled, "not 1 against 2" (M-107).
fn is_same(cells: &Cells<'_>, values: &[i64], marks: &[u8], at: usize, field: u64) -> bool
    requires { (has_field cells.now.sizes field ≡ true) × Space cells.now.sizes at values.now marks.now × HasColumn cells.now.sizes at values.now }
    ensures { SameAs cells.now.sizes field (cells_in cells.now) at values.now marks.now result }
{
    for u in 0..cells.sizes.records {
        let before = scratch::read_at(values, marks, at + u);
        let after = follow::read_cell(cells, u, field as usize);
        if before != after {
            return false;
        }
    }
    true
}

// Before a step over the register in `file`: the first of its loop begins a pass. The index of the pass's first step.
pub fn enter(
    file: &[u8],
    values: &mut [i64],
    marks: &mut [u8],
    sizes: Sizes,
    at: usize,
    setting: Setting,
    step: usize,
    first: usize,
) -> usize
    requires { Limits sizes × (length file.now ≡ 12 + 5 * cell_count sizes) × SettingPasses sizes setting × Space sizes at values.old marks.old }
    ensures { (result ≡ cond (begins setting) step first)
        × Entered sizes setting (cells_of_file sizes file.now) at values.old marks.old values.new marks.new }
{
    match setting {
        Setting::Single => first,
        Setting::Looped(field, is_first, _) => {
            if is_first {
                let cells = Cells::of(file, sizes);
                column::copy_column(&cells, values, marks, at, field as usize);
                return step;
            }
            first
        }
    }
}

// Behind a step: the last of its loop leads back to the first until the column is the same. The index of the next step.
pub fn next(
    file: &[u8],
    values: &[i64],
    marks: &[u8],
    sizes: Sizes,
    at: usize,
    setting: Setting,
    step: usize,
    first: usize,
) -> usize
    requires { Limits sizes × (length file.now ≡ 12 + 5 * cell_count sizes) × SettingPasses sizes setting × Space sizes at values.now marks.now
        × HasPass sizes setting at values.now × (step < 32) }
    ensures { NextIs sizes setting (cells_of_file sizes file.now) at values.now marks.now step first result }
{
    match setting {
        Setting::Single => step + 1,
        Setting::Looped(field, _, last) => {
            if last && !is_same(&Cells::of(file, sizes), values, marks, at, field) {
                return first;
            }
            step + 1
        }
    }
}
