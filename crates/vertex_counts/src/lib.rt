// The counts from a vertex that the recurrence of path counts gives: worked out, compared and written.
#![tactic(auto)]

ghost use Rattle.std.specs.Prelude.{◌≡◌, ℕ, ◌≤◌, ◌<◌, ◌^◌, length};
ghost use Rattle.answer.specs.Table.{Reflects};
ghost use Rattle.sheet_theory.specs.Layout.{Shape, row_at};
ghost use Rattle.sheet.specs.Internal.{with_counts};
ghost use Rattle.sheet_theory.specs.Internal.{successors_sum, CountsHold, RowsBelow};
ghost use Rattle.vertex_counts.specs.Internal.{SuccessorsSummed, SameWords, counted};
ghost use Rattle.order.specs.Internal.{Ordered};

use sheet::{Sheet, View};
use word::Plus;

// The counts from i as the recurrence gives them, put in the first places of t: one to i itself, and those from its successors added up,
// modulo 2^64. The array is lent, since one that is handed out is copied for each vertex, and `recount` takes half as long again on 4
// vertices; one of its own would be cleared whole.
// `RowsBelow` says of all rows that they are below 2^n; here it is asked of row i alone, as a clause.
fn sum_successors(sheet: View, i: usize, t: &mut [u64; Sheet::VERTICES])
    requires { (i < sheet.n) × (row_at sheet.words.now i < 2 ^ sheet.n) }
    ensures { SuccessorsSummed sheet.entry.n sheet.entry.words.now i t.new }
{
    t[..sheet.n].fill(0);
    sheet.combine_counts::<Plus>(0, sheet.n, sheet.row(i), t);
    t[i] = word::wrapping_add(t[i], 1);
}

// Internal: whether these words are the first of t. The differences of all are gathered and tested once: `==` tests word by word, and by it
// `validate` takes three times as long.
pub fn same_words(words: &[u64], t: &[u64]) -> bool
    requires { length words.now ≤ length t.now }
    ensures { Reflects result (SameWords (length words.now) words.now t.now) }
{
    let mut difference = 0;
    for (x, y) in words.iter().zip(t) {
        difference |= *x ^ *y;
    }
    difference == 0
}

// Whether the counts from i satisfy the recurrence. What it gives is put in t.
#[tactic(auto, using(crate::proofs::CountsLaws::holds_same))]
fn counts_hold(sheet: View, i: usize, t: &mut [u64; Sheet::VERTICES]) -> bool
    requires { (i < sheet.n) × (row_at sheet.words.now i < 2 ^ sheet.n) }
    ensures { Reflects result (CountsHold sheet.entry.n sheet.entry.words.now i) }
{
    sum_successors(sheet, i, t);
    same_words(sheet.counts_from(i), t)
}

// Internal: whether all counts satisfy the recurrence.
pub fn all_counts_hold(sheet: View) -> bool
    requires { RowsBelow sheet.n sheet.words.now }
    ensures { Reflects result ((i : ℕ) → i < sheet.entry.n → CountsHold sheet.entry.n sheet.entry.words.now i) }
{
    let mut t = [0; Sheet::VERTICES];
    for i in 0..sheet.n {
        if !counts_hold(sheet, i, &mut t) {
            return false;
        }
    }
    true
}

// The counts from v, written as the recurrence gives them. What writes a sheet takes n and the words: a struct that held the `&mut` would
// have to say in each contract that it keeps both. They are worked out in t.
fn fill_counts_from(n: usize, sheet: &mut [u64], v: usize, t: &mut [u64; Sheet::VERTICES])
    requires { (Shape n sheet.old) × (v < n) × (row_at sheet.old v < 2 ^ n) }
    ensures { sheet.new ≡ with_counts n sheet.old v 0 n (successors_sum n sheet.old v) }
{
    sum_successors(View { n, words: sheet }, v, t);
    sheet::words::copy_words(&t[..n], sheet, sheet::layout::counts_start(n, v));
}

// Internal: the counts, in the order given, vertex by vertex. A struct can't hold the order with the `&mut` either: it is an order of the
// sheet as it was lent. `all_counts_hold` has a loop of its own: a loop for both would need a sheet to write, and a test has none.
#[tactic(auto, using(crate::proofs::FilledLaws::filled_more))]
pub fn fill_all_counts(n: usize, sheet: &mut [u64], order: &[usize])
    requires { (Shape n sheet.old) × (Ordered n sheet.old order.now) }
    ensures { sheet.new ≡ counted n sheet.old }
{
    let mut t = [0; Sheet::VERTICES];
    for &v in order {
        fill_counts_from(n, sheet, v, &mut t);
    }
}
