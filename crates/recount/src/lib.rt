// The counts of a sheet worked out afresh from its rows, and the test whether a sheet is valid. The calls of this file answer every n,
// every length and all words.
#![tactic(auto)]

ghost use Rattle.std.specs.Prelude.{◌≡◌, []};
ghost use Rattle.answer.specs.Answers.{number_of, answer_of};
ghost use Rattle.answer.specs.Table.{First, Reflects};
ghost use Rattle.sheet_theory.specs.Layout.{Shape};
ghost use Rattle.sheet_theory.specs.Lent.{lent};
ghost use Rattle.sheet_theory.specs.Valid.{Valid, not_valid};
ghost use Rattle.recount_theory.specs.Calls.{row_conditions, RecountBy, Recount, Validate};
ghost use Rattle.vertex_counts.specs.Internal.{counted};
ghost use Rattle.order.specs.Internal.{Ordered};

use arrayvec::ArrayVec;
use sheet::{Answer, Refusal, View};

// The counts, in the order given: each from those of its successors, which are earlier. What writes a sheet takes n and the words, here and
// below: the reason stands at `View`.
fn fill_counts(n: usize, sheet: &mut [u64], order: &[usize])
    requires { (Shape n sheet.old) × (Ordered n sheet.old order.now) }
    ensures { sheet.new ≡ counted n sheet.old }
{
    if n < count_blocks::COLUMNS {
        vertex_counts::fill_all_counts(n, sheet, order);
        return;
    }
    count_blocks::fill_blocks(n, sheet, order);
}

// Internal: the counts of a sheet of the right shape, worked out afresh from the rows. 4 and 8 are looked for before a word is written.
#[tactic(auto, using(crate::proofs::RecountLaws::recount_laws))]
pub fn recount_core(n: usize, sheet: &mut [u64]) -> Result<u64, Refusal>
    requires { Shape n sheet.old }
    ensures { RecountBy (row_conditions n (lent sheet.old)) n (lent sheet.old) (answer_of result) (lent sheet.new) }
{
    let lent = View { n, words: sheet };
    if lent.has_stray_row() {
        return Err(Refusal::StrayBit);
    }

    let mut room = ArrayVec::new();
    let order = order::find_order(lent, &mut room).ok_or(Refusal::Cycle)?;
    fill_counts(n, sheet, order);
    let counted = View { n, words: sheet };
    Ok(counted.set_bits())
}

// The work of `recount`.
fn recount_lent(n: usize, sheet: &mut [u64]) -> Result<u64, Refusal>
    ensures { Recount n (lent sheet.old) (answer_of result) (lent sheet.new) }
{
    sheet::checks::altering(n, sheet)?;
    recount_core(n, sheet)
}

// The counts worked out afresh from the rows (document 01: the survey). Refused by 1, 2, 4, 8, before a word is written. The
// value is the number of set bits in all rows.
pub fn recount(n: usize, sheet: &mut [u64]) -> Answer
    ensures recounted { Recount n (lent sheet.old) result (lent sheet.new) }
{
    recount_lent(n, sheet).into()
}

// Whether a sheet is valid. Where there is no cycle, the counts are the numbers of paths exactly if they satisfy the recurrence.
#[tactic(auto, using(crate::proofs::ValidateLaws::valid_laws))]
fn is_valid(sheet: View) -> bool
    ensures { Reflects result (Valid sheet.entry.n (lent sheet.entry.words.now)) }
{
    if sheet.has_stray_row() {
        return false;
    }
    let mut room = ArrayVec::new();
    let Some(order) = order::find_order(sheet, &mut room) else {
        return false;
    };
    if sheet.n < count_blocks::COLUMNS {
        return vertex_counts::all_counts_hold(sheet);
    }
    count_blocks::blocks_hold(sheet, order)
}

// The work of `validate`.
fn validate_lent(n: usize, sheet: &[u64]) -> Result<u64, Refusal>
    ensures { Validate n (lent sheet.now) (answer_of result) }
{
    let sheet = View::of(n, sheet)?;
    Ok(u64::from(is_valid(sheet)))
}

// Whether the sheet is valid, whoever wrote it (document 01: the test of a stored sheet). Refused by 1, 2. The value is 1 or 0.
pub fn validate(n: usize, sheet: &[u64]) -> Answer
    ensures tested { Validate n (lent sheet.now) result }
{
    validate_lent(n, sheet).into()
}

// Internal: 9 if a sheet of the right shape is not valid.
pub fn check_valid(sheet: View) -> Result<(), Refusal>
    ensures { First (not_valid sheet.entry.n (lent sheet.entry.words.now) []) (number_of result) }
{
    if is_valid(sheet) {
        return Ok(());
    }
    Err(Refusal::NotValid)
}
