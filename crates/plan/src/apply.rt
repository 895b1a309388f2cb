// The records of a plan, applied one after the other. What writes a sheet takes n and the words: the reason stands at `View`.
ghost use Rattle.std.specs.Prelude.{◌≡◌, ◌%◌, length};
ghost use Rattle.answer.specs.Answers.{number_of, answer_at};
ghost use Rattle.record.specs.Record.{record_bytes};
ghost use Rattle.sheet_theory.specs.Layout.{Shape};
ghost use Rattle.sheet_theory.specs.Lent.{lent};
ghost use Rattle.plan_theory.specs.Records.{number_on, left_by};
ghost use Rattle.plan_theory.specs.Calls.{applied_plan};
ghost use Rattle.plan.specs.Internal.{Reached, AppliedAll};

use answer::RefusedAt;
use record::reader::PlanReader;
use record::{Malformed, Record};
use sheet::{Refusal, Sheet, View};

// One record, applied, or why it is refused.
#[tactic(auto, using(crate::proofs::ApplyLaws::number_answered), unfolding(plan_theory::specs::Records::number_on))]
fn apply_record(
    n: usize,
    sheet: &mut [u64],
    record: Result<Record, Malformed>,
) -> Result<u64, Refusal>
    ensures number { number_of result ≡ number_on n (lent sheet.old) «record» }
    ensures words { lent sheet.new ≡ left_by n (lent sheet.old) «record» }
{
    match record {
        Ok(Record::Insert(from, to)) => edit::edit_edge(true, n, sheet, from, to),
        Ok(Record::Delete(from, to)) => edit::edit_edge(false, n, sheet, from, to),
        Err(Malformed) => Err(Refusal::Record),
    }
}

// The records of a plan of whole records, up to the first that is refused.
fn apply(n: usize, sheet: &mut [u64], plan: &[u8]) -> Result<(), RefusedAt>
    requires { length plan.now % record_bytes ≡ 0 }
    ensures { Reached (applied_plan n (lent sheet.old) plan.now) result (lent sheet.new) }
{
    // The place is cast: from `usize` to `u64` there is no `From`.
    for (k, record) in PlanReader::at(plan, 0).enumerate() {
        apply_record(n, sheet, record).map_err(|refusal| RefusedAt {
            refusal,
            place: Some(k as u64 + 1),
        })?;
    }
    Ok(())
}

// Internal: the records of a plan of whole records on a sheet of the right shape, all of them or none: if one is refused, the words are
// put back.
pub fn apply_core(n: usize, sheet: &mut [u64], plan: &[u8]) -> Result<u64, RefusedAt>
    requires { (Shape n sheet.old) × (length plan.now % record_bytes ≡ 0) }
    ensures { AppliedAll n (lent sheet.old) plan.now (answer_at result) (lent sheet.new) }
{
    let words = sheet::layout::word_count(n);
    // An array of the greatest size, whose front alone is used: there is no heap.
    let mut kept = [0u64; Sheet::WORDS];
    sheet::words::copy_words(sheet, &mut kept, 0);
    if let Err(refused) = apply(n, sheet, plan) {
        sheet::words::copy_words(&kept[..words], sheet, 0);
        return Err(refused);
    }
    let applied = View { n, words: sheet };
    Ok(applied.set_bits())
}
