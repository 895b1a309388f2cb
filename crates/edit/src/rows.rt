// The rows after an edit: the bits of the edges that it names set or cleared, and every other bit as it was.
ghost use Rattle.std.specs.Prelude.{◌≡◌};
ghost use Rattle.sheet_theory.specs.Layout.{Shape};
ghost use Rattle.edit.specs.Internal.{Marked, rows_edited};

use edit_counts::EdgesAt;
use word::Bits;

// The bits of the mask set in row, or cleared.
fn mark(inserts: bool, row: u64, mask: u64) -> u64
    ensures { Marked inserts row mask result }
{
    if inserts {
        return row | mask;
    }
    row & !mask
}

// Bit v of the rows of the predecessors set, or cleared.
// What writes a sheet takes the edges, which have n, and the words, here and below: the reason stands at `View`.
#[tactic(auto, using(sheet_theory::proofs::LayoutLaws::rows_within))]
fn mark_into(edges: EdgesAt, sheet: &mut [u64])
    requires { Shape edges.n sheet.old }
    ensures { sheet.new ≡ rows_edited edges.inserts edges.n sheet.old edges.v edges.predecessors 0 }
{
    for i in Bits::of(edges.predecessors) {
        sheet[i] = mark(edges.inserts, sheet[i], 1 << edges.v);
    }
}

// Every row as the edit leaves it.
#[tactic(auto, using(sheet_theory::proofs::LayoutLaws::rows_within, crate::proofs::EditedRows::rows_edited_lem))]
pub(crate) fn edit_rows(edges: EdgesAt, sheet: &mut [u64])
    requires { Shape edges.n sheet.old }
    ensures { sheet.new ≡ rows_edited edges.inserts edges.n sheet.old edges.v edges.predecessors edges.successors }
{
    mark_into(edges, sheet);
    sheet[edges.v] = mark(edges.inserts, sheet[edges.v], edges.successors);
}
