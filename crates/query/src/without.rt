// The question of a path without an edge: its checks past that of the sheet, and the product that it compares with a count.
ghost use Rattle.std.specs.Prelude.{◌≡◌, ◌<◌};
ghost use Rattle.answer.specs.Answers.{number_of};
ghost use Rattle.answer.specs.Table.{First};
ghost use Rattle.sheet_theory.specs.Lent.{lent};
ghost use Rattle.query_theory.specs.ReachesWithout.{product};
ghost use Rattle.query.specs.Internal.{without_conditions};

use sheet::{Refusal, View};

// Where a path is to begin and to end, and where the edge that it goes without begins and ends.
#[derive(Clone, Copy)]
pub(crate) struct WithoutEdge {
    pub(crate) from: usize,
    pub(crate) to: usize,
    pub(crate) edge_from: usize,
    pub(crate) edge_to: usize,
}

impl WithoutEdge {
    // Whether such a path may be asked for, or why not: 3, 7.
    pub(crate) fn check(self, sheet: View) -> Result<(), Refusal>
        ensures { First (without_conditions sheet.entry.n (lent sheet.entry.words.now) self) (number_of result) }
    {
        // The greatest of the four, which is one test: docs/SPEED.md.
        if sheet.n <= self.from.max(self.to).max(self.edge_from.max(self.edge_to)) {
            return Err(Refusal::Vertex);
        }
        if !sheet.has_edge(self.edge_from, self.edge_to) {
            return Err(Refusal::Absent);
        }
        Ok(())
    }

    // The product of the counts to the edge and from it, modulo 2^64; on a valid sheet, the number of paths that use the edge.
    pub(crate) fn product(self, sheet: View) -> u64
        requires { (self.from < sheet.n) × (self.to < sheet.n) × (self.edge_from < sheet.n) × (self.edge_to < sheet.n) }
        ensures { result ≡ product sheet.entry.n sheet.entry.words.now self.from self.to self.edge_from self.edge_to }
    {
        word::wrapping_mul(
            sheet.count(self.from, self.edge_from),
            sheet.count(self.edge_to, self.to),
        )
    }
}
