// The checks that come before a plan is read.
ghost use Rattle.std.specs.Prelude.{[], ◌∷◌};
ghost use Rattle.answer.specs.Answers.{number_of};
ghost use Rattle.answer.specs.Table.{◌gives◌, First};
ghost use Rattle.sheet_theory.specs.Lent.{lent};
ghost use Rattle.plan_theory.specs.Calls.{BadPlan, read_conditions};

use record::Record;
use sheet::{Refusal, View};

// 13 if the length of a plan is not a multiple of 8, or over 32,768 bytes.
fn check_length(plan: &[u8]) -> Result<(), Refusal>
    ensures { First (BadPlan plan.now gives 13 ∷ []) (number_of result) }
{
    let bytes = plan.len();
    if bytes % Record::BYTES != 0 || crate::MOST_BYTES < bytes {
        return Err(Refusal::PlanLength);
    }
    Ok(())
}

// What is looked for before the first record: 1, 2, 9, 13.
pub(crate) fn check_plan(n: usize, sheet: &[u64], plan: &[u8]) -> Result<(), Refusal>
    ensures { First (read_conditions n (lent sheet.now) plan.now) (number_of result) }
{
    sheet::checks::altering(n, sheet)?;
    let lent = View { n, words: sheet };
    recount::check_valid(lent)?;
    check_length(plan)
}
