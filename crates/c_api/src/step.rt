// The plan of a step.
ghost use Rattle.text_rules.specs.Text.{plan_of_step};
ghost use Rattle.c_api.specs.PlanAnswer.{PlanAnswer};

use api_plan;

// The plan of a step, counted from 1: the refusal number, 0 for none. On a refusal the three arrays stay as they are.
pub fn plot_plan(
    file: &[u8],
    text: &[u8],
    step: u64,
    kinds: &mut [u8; 64],
    chains: &mut [u8; 1024],
    rounds: &mut [u8; 64],
    answer: &mut [u64; 8],
) -> u32
    ensures { PlanAnswer (plan_of_step file.now text.now step) result answer.new
        (record { kinds = kinds.old; chains = chains.old; rounds = rounds.old })
        (record { kinds = kinds.new; chains = chains.new; rounds = rounds.new }) }
{
    let found = match op_check::step::plan_step(file, text, step) {
        Ok(found) => found,
        Err(refused) => {
            *answer = [refused.line as u64, 0, 0, 0, 0, 0, 0, 0];
            return refused.refusal.number();
        }
    };
    let plan = found.plan;
    let count = plan.count;
    api_plan::fill(&plan, kinds, chains, rounds);
    *answer = [
        0,
        0,
        0,
        0,
        0,
        0,
        count as u64,
        api_plan::flag_number(found.remote),
    ];
    0
}
