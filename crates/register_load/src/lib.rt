// Whether a file is a register, and why another is refused.
#![tactic(auto)]

ghost use Rattle.std.specs.Prelude.{◌≡◌};
ghost use Rattle.register.specs.Load.{within_limits, load_sized, load as load_of};
ghost use Rattle.register.specs.Shape.{Limits};
ghost use Rattle.register_load.specs.Answer.{outcome_of};

use register;
use register::Sizes;
use register::cells::Cells;
use register_check;
use register_check::Refusal;

// Whether a file is a register: its sizes, or why it is refused.
pub fn load(file: &[u8]) -> Result<Sizes, Refusal>
    ensures { outcome_of result ≡ load_of file.now }
{
    if file.len() < 12 {
        return Err(Refusal::Length);
    }
    let sizes = register::sizes_of(file);
    if within_limits(sizes) {
        load_sized(file, sizes)
    } else {
        Err(Refusal::SizeLimit)
    }
}

fn load_sized(file: &[u8], sizes: Sizes) -> Result<Sizes, Refusal>
    requires { Limits sizes }
    ensures { outcome_of result ≡ load_sized sizes file.now }
{
    let count = register::cell_count(sizes);
    if file.len() != 12 + 5 * count {
        return Err(Refusal::Length);
    }
    let cells = Cells::of(file, sizes);
    register_check::check_cells(&cells)?;
    Ok(sizes)
}

#[tactic(auto, unfolding(register::specs::Load::within_limits))]
fn within_limits(sizes: Sizes) -> bool
    ensures { result ≡ within_limits sizes }
{
    sizes.records <= 4096 && sizes.references <= 8 && sizes.measures <= 8
}
