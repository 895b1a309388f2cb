// The empty sheet, written. What writes a sheet takes n and the words: the reason stands at `View`.
ghost use Rattle.std.specs.Prelude.{◌≡◌, ℕ};
ghost use Rattle.sheet_theory.specs.Layout.{Shape, empty_sheet};
ghost use Rattle.sheet.specs.Fill.{puts};
ghost use Rattle.sheet.specs.Internal.{diagonal_at};

use crate::layout;

// 1 at each count from a vertex to itself.
#[tactic(auto, using(crate::proofs::FillLaws::puts_none, crate::proofs::FillLaws::puts_more))]
fn diagonal(n: usize, sheet: &mut [u64])
    requires { Shape n sheet.old }
    ensures { sheet.new ≡ puts sheet.old (diagonal_at n) (λ (k : ℕ). 1) n }
{
    for i in 0..n {
        sheet[layout::count_place(n, i, i)] = 1;
    }
}

// The empty sheet of n vertices, whatever the words were.
pub(crate) fn fill_empty(n: usize, sheet: &mut [u64])
    requires { Shape n sheet.old }
    ensures { sheet.new ≡ empty_sheet n }
{
    sheet.fill(0);
    diagonal(n, sheet);
}
