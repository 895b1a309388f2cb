// The layout of a sheet: where each row and each count is stored; and the sheet's own type.
ghost use Rattle.std.specs.Prelude.{◌≡◌, ◌≤◌, ◌<◌};
ghost use Rattle.sheet_theory.specs.Layout.{most_vertices, counts_end, size, Shape, count_at, empty_sheet};
ghost use Rattle.sheet.specs.Internal.{Place, CountsFrom};

use crate::fill;

// A sheet of the greatest size. Other sheets are lent as n + n × n words.
#[derive(Drop)]
pub struct Sheet {
    pub words: [u64; Sheet::WORDS],
}

impl Sheet {
    // The most vertices that a sheet has.
    pub const VERTICES: usize = 64;
    // The words of a sheet of so many vertices: 64 rows and 64 × 64 counts.
    pub const WORDS: usize = 4160;
    // The most edges that a valid sheet has: 64 × 63 / 2. No call refuses by it.
    pub const EDGES: usize = 2016;

    // The empty sheet of 64 vertices.
    pub fn new() -> Sheet
        ensures words { result.words ≡ empty_sheet most_vertices }
    {
        let mut words = [0u64; Sheet::WORDS];
        fill::fill_empty(Sheet::VERTICES, &mut words);
        Sheet { words }
    }
}

// Internal: where the counts end. The bound of n is a clause, here and below: one caller has n from a `View`, one from the edges of an edit,
// one has it alone, and a number of a type for it would be made at each call.
#[tactic(auto, using(sheet_theory::proofs::LayoutLaws::counts_le))]
pub fn counts_end(n: usize) -> usize
    requires { n ≤ most_vertices }
    ensures { result ≡ counts_end n }
{
    n + n * n
}

// Internal: how many words a sheet of n vertices has.
pub fn word_count(n: usize) -> usize
    requires { n ≤ most_vertices }
    ensures { result ≡ size n }
{
    counts_end(n)
}

// Internal: where the counts from vertex i begin.
pub fn counts_start(n: usize, i: usize) -> usize
    requires { (n ≤ most_vertices) × (i < n) }
    ensures { CountsFrom n i result }
{
    n + i * n
}

// Where the count from vertex i to vertex j stands.
pub(crate) fn count_place(n: usize, i: usize, j: usize) -> usize
    requires { (n ≤ most_vertices) × (i < n) × (j < n) }
    ensures { Place n i j result }
{
    counts_start(n, i) + j
}
