// A sheet that is lent to be read: its rows and its counts.
ghost use Rattle.std.specs.Prelude.{◌≡◌, ◌+◌, ◌≤◌, ◌<◌, ◌^◌, IfOk, [], length};
ghost use Rattle.word.specs.Bit.{has_bit};
ghost use Rattle.answer.specs.Answers.{number_of};
ghost use Rattle.answer.specs.Table.{First, Reflects};
ghost use Rattle.sheet_theory.specs.Layout.{Shape, row_at, count_at, set_bits};
ghost use Rattle.sheet_theory.specs.Lent.{lent};
ghost use Rattle.sheet_theory.specs.Conditions.{StrayRow, vertex_conditions, sized};
ghost use Rattle.sheet.specs.Internal.{CountsFrom, CountsOf, SumsBy};

use crate::layout::Sheet;
use crate::{layout, words};
use answer::Refusal;
use word::{Bits, Combine};

// A sheet of n vertices, lent to be read. A sheet that is written is lent as n and its words: a struct that held the `&mut` would have to
// say in the contract of each function that it keeps the same reference and the same n.
#[derive(Clone, Copy)]
pub struct View<'a> {
    pub n: usize,
    pub words: &'a [u64],
    ghost shape: { Shape n words.now },
}

impl<'a> View<'a> {
    // Internal: what is lent as a sheet, or why it is none: 1 if n is not 1 to 64, else 2 if it has another number of words than a sheet
    // of n vertices.
    pub fn of(n: usize, words: &'a [u64]) -> Result<View<'a>, Refusal>
        ensures number { First (sized n (lent words.now) []) (number_of result) }
        ensures view { IfOk result (λ v. (v.n ≡ n) × (v.words ≡ words.entry)) }
    {
        if n < 1 || Sheet::VERTICES < n {
            return Err(Refusal::Vertices);
        }
        if words.len() != layout::word_count(n) {
            return Err(Refusal::Length);
        }
        Ok(View { n, words })
    }

    // Internal: 3 if one of the vertices i and j is n or more.
    pub fn check_vertices(self, i: usize, j: usize) -> Result<(), Refusal>
        ensures { First (vertex_conditions self.entry.n i j []) (number_of result) }
    {
        if self.n <= i || self.n <= j {
            return Err(Refusal::Vertex);
        }
        Ok(())
    }

    // Internal: row i.
    #[tactic(auto, using(sheet_theory::proofs::LayoutLaws::rows_within))]
    pub fn row(self, i: usize) -> u64
        requires { i < self.n }
        ensures { result ≡ row_at self.entry.words.now i }
    {
        self.words[i]
    }

    // Internal: whether there is an edge from vertex i to vertex j.
    #[tactic(auto, using(sheet_theory::proofs::LayoutLaws::rows_within))]
    pub fn has_edge(self, i: usize, j: usize) -> bool
        requires { (i < self.n) × (j < self.n) }
        ensures { result ≡ has_bit (row_at self.entry.words.now i) j }
    {
        word::test_bit(self.words[i], j)
    }

    // Internal: where the counts from vertex i begin.
    pub fn counts_start(self, i: usize) -> usize
        requires { i < self.n }
        ensures { CountsFrom self.entry.n i result }
    {
        layout::counts_start(self.n, i)
    }

    // Internal: the counts from vertex i.
    pub fn counts_from(self, i: usize) -> &'a [u64]
        requires { i < self.n }
        ensures { CountsOf self.entry.n self.entry.words.now i result.now }
    {
        let from = self.counts_start(i);
        &self.words[from..from + self.n]
    }

    // Internal: the count from vertex i to vertex j.
    pub fn count(self, i: usize, j: usize) -> u64
        requires { (i < self.n) × (j < self.n) }
        ensures { result ≡ count_at self.entry.n self.entry.words.now i j }
    {
        self.words[self.counts_start(i) + j]
    }

    // Internal: whether a row has a bit at n or above.
    #[tactic(auto, using(crate::proofs::SliceLaws::rows_taken))]
    pub fn has_stray_row(self) -> bool
        ensures { Reflects result (StrayRow self.entry.n self.entry.words.now) }
    {
        for row in &self.words[..self.n] {
            if !word::within(*row, self.n) {
                return true;
            }
        }
        false
    }

    // Internal: the set bits of all rows.
    #[tactic(auto, using(crate::proofs::SliceLaws::rows_taken))]
    pub fn set_bits(self) -> u64
        ensures { result ≡ set_bits self.entry.n self.entry.words.now }
    {
        let mut total = 0;
        for row in &self.words[..self.n] {
            total += word::count_bits(*row);
        }
        total
    }

    // Internal: the counts from the vertices of the mask to the w columns from c on, combined with the first w words of t: added up, or
    // taken off.
    // A mask has no type of its own: that would have to hold n, and each contract would say `mask.n ≡ sheet.n` in place of `mask < 2 ^ n`.
    pub fn combine_counts<C: Combine>(self, c: usize, w: usize, mask: u64, t: &mut [u64])
        requires { (c + w ≤ self.n) × (mask < 2 ^ self.n) × (w ≤ length t.old) }
        ensures { SumsBy C.op self.entry.n self.entry.words.now c w mask t.old t.new self.entry.n }
    {
        for b in Bits::of(mask) {
            let from = self.counts_start(b) + c;
            words::combine_words::<C>(&self.words[from..from + w], t);
        }
    }
}
