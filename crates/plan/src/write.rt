// The edges of a sheet, written as records.
ghost use Rattle.std.specs.Prelude.{◌≡◌, ◌+◌, ◌≤◌, ◌<◌, length};
ghost use Rattle.text.specs.Text.{Put, written};
ghost use Rattle.sheet_theory.specs.Layout.{most_vertices};
ghost use Rattle.sheet_theory.specs.Lent.{lent};
ghost use Rattle.record.specs.Record.{insert_letter, encoded};
ghost use Rattle.plan_theory.specs.PlanOf.{row_bytes, plan_of};

use sheet::View;
use word::Bits;

// The record of the edge from i to j, from a place on: the place after it. The place goes beside the buffer, as in `text::put`.
fn write_edge(i: usize, j: usize, plan: &mut [u8], at: usize) -> usize
    requires { (i < most_vertices) × (j < most_vertices) × (at + length (encoded insert_letter i j) ≤ length plan.old) }
    ensures { Put plan.old at (encoded insert_letter i j) plan.new result }
{
    let bytes = record::encode(b'L', i, j);
    text::put(plan, at, &bytes)
}

// The records of the edges from i.
fn write_row(sheet: View, i: usize, plan: &mut [u8], at: usize) -> usize
    requires { (i < sheet.n) × (at + length (row_bytes sheet.n (lent sheet.words.now) i) ≤ length plan.old) }
    ensures { Put plan.old at (row_bytes sheet.entry.n (lent sheet.entry.words.now) i) plan.new result }
{
    let mut place = at;
    for j in Bits::of(sheet.row(i) & word::low_bits(sheet.n)) {
        place = write_edge(i, j, plan, place);
    }
    place
}

// The records of all edges, in the first places.
pub(crate) fn write_rows(sheet: View, plan: &mut [u8])
    requires { length (plan_of sheet.n (lent sheet.words.now)) ≤ length plan.old }
    ensures { plan.new ≡ written (plan_of sheet.entry.n (lent sheet.entry.words.now)) plan.old }
{
    let mut place = 0;
    for i in 0..sheet.n {
        place = write_row(sheet, i, plan, place);
    }
}
