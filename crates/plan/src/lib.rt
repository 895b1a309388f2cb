// Plans: edits of one edge each, written by a grower, read into a sheet, and the edges of a sheet written as a plan. The calls of this
// file answer every n, every length, all words and all bytes.
#![tactic(auto)]

ghost use Rattle.answer.specs.Answers.{answer_of, answer_at};
ghost use Rattle.sheet_theory.specs.Lent.{lent};
ghost use Rattle.plan_theory.specs.Calls.{ReadPlan, WritePlan};

use answer::RefusedAt;
use record::Record;
use sheet::{Answer, Refusal, View};

pub mod apply;
mod check;
mod write;

// The greatest length of a plan, in bytes: 4,096 records.
pub const MOST_BYTES: usize = 32768;

// The records of a plan, applied one after the other to the sheet; if one is refused, those before it are undone (document 01: plan
// read). Refused by 1, 2, 9, 13, and at a record, whose place from 1 up is answered, by 14, 3, 5, 6, 7, 8. The value is the number
// of set bits in all rows afterwards.
pub fn read_plan(n: usize, sheet: &mut [u64], plan: &[u8]) -> Answer
    ensures read { ReadPlan n (lent sheet.old) plan.now result (lent sheet.new) }
{
    apply_plan(n, sheet, plan).into()
}

// Internal: the work of `read_plan`: its value, or why it refuses and at which record. What writes a sheet takes n and the words: the reason
// stands at `View`.
pub fn apply_plan(n: usize, sheet: &mut [u64], plan: &[u8]) -> Result<u64, RefusedAt>
    ensures { ReadPlan n (lent sheet.old) plan.now (answer_at result) (lent sheet.new) }
{
    check::check_plan(n, sheet, plan)?;
    apply::apply_core(n, sheet, plan)
}

// The edges of a sheet as `L` records, ascending by from, then to, in the first places of `plan` (document 01: plan written).
// Refused by 1, 2, 9, 10. The value is the number of bytes written.
pub fn write_plan(n: usize, sheet: &[u64], plan: &mut [u8]) -> Answer
    ensures written { WritePlan n (lent sheet.now) plan.old result plan.new }
{
    write_edges(n, sheet, plan).into()
}

// The work of `write_plan`.
fn write_edges(n: usize, sheet: &[u64], plan: &mut [u8]) -> Result<u64, Refusal>
    ensures { WritePlan n (lent sheet.now) plan.old (answer_of result) plan.new }
{
    let sheet = View::of(n, sheet)?;
    recount::check_valid(sheet)?;

    // Lengths are cast: from `usize` to `u64` there is no `From`.
    let bytes = Record::BYTES as u64 * sheet.set_bits();
    if (plan.len() as u64) < bytes {
        return Err(Refusal::Buffer);
    }
    write::write_rows(sheet, plan);
    Ok(bytes)
}
