// Adding a reading to a plan.
#![tactic(auto)]

ghost use Rattle.std.specs.Prelude.{◌≤◌, length};
ghost use Rattle.chain.specs.Word.{unpack};
ghost use Rattle.plan_theory.specs.Plan.{read, hops, add as addOf};
ghost use Rattle.plan_keys.specs.Keys.{fact_of};
ghost use Rattle.plan_lines.specs.Held.{facts, Keyed, HoldsLines, ExtendedTo};

use plan_keys::key;
use plan_keys::key::ONE_HOP;
use plan_lines;
use plan_lines::{Full, Plan};

// The lines of a reading behind those of a plan. Where there is no room, no more than 64 lines are counted.
pub fn add(plan: &mut Plan, chain: u64) -> Result<(), Full>
    requires { HoldsLines plan.old (facts plan.old) × (length (unpack chain) ≤ 16) }
    ensures { ExtendedTo (addOf (facts plan.old) (read (unpack chain))) plan.new result × Keyed plan.new.keys plan.new.count }
{
    add_fact(plan, key::read(chain))
}

// The lines of a fact behind those of a plan, those of its needs first, then its own.
fn add_fact(plan: &mut Plan, key: u64) -> Result<(), Full>
    requires { HoldsLines plan.old (facts plan.old) × (hops (fact_of key) ≤ 16) }
    ensures { ExtendedTo (addOf (facts plan.old) (fact_of key)) plan.new result × Keyed plan.new.keys plan.new.count }
{
    if plan.is_settled(key) {
        return Ok(());
    }
    if key <= ONE_HOP {
        return plan.append(plan_lines::first_line(key));
    }
    let needs = key::needs_of(key);
    add_fact(plan, needs.back)?;
    add_fact(plan, needs.read)?;
    let line = plan.line_after(key, needs);
    plan.append(line)
}
