// The line of a reading in a plan.
ghost use Rattle.std.specs.Prelude.{◌≤◌, length};
ghost use Rattle.chain.specs.Word.{unpack};
ghost use Rattle.plan_lines.specs.Held.{facts, HoldsLines};
ghost use Rattle.text_readings.specs.Readings.{LineAdded};

use plan_keys::key;
use plan_lines::{Full, Plan};

// The line of a reading of several hops, which is added where it has none. It is the last then.
pub(crate) fn line_of(plan: &mut Plan, chain: u64) -> Result<usize, Full>
    requires { HoldsLines plan.old (facts plan.old) × (2 ≤ length (unpack chain)) × (length (unpack chain) ≤ 16) }
    ensures { LineAdded (unpack chain) plan.old plan.new result }
{
    let before = plan.count;
    plan_builder::add(plan, chain)?;
    if before < plan.count {
        return Ok(plan.count - 1);
    }
    Ok(plan.find(key::read(chain)).unwrap())
}
