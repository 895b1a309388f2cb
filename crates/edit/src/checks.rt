// What an edit is refused by once its arguments are in order, in the table's order. Nothing is written here.
ghost use Rattle.std.specs.Prelude.{◌≡◌, ℕ, ◌<◌, ◌^◌};
ghost use Rattle.graph.specs.Update.{Closes};
ghost use Rattle.word.specs.Bit.{bit};
ghost use Rattle.answer.specs.Table.{Reflects};
ghost use Rattle.answer.specs.Answers.{number_of};
ghost use Rattle.sheet_theory.specs.Layout.{count_at, edge_at};
ghost use Rattle.sheet_theory.specs.Lent.{lent};
ghost use Rattle.edit_theory.specs.Edit.{at, one_if};
ghost use Rattle.edit_theory.specs.Table.{SomeEdge, SomeOf};
ghost use Rattle.edit.specs.Internal.{EditNumber, RefusedBits, Tells, Meets};

use edit_counts::EdgesAt;
use sheet::{Refusal, View};
use word::Bits;

// The bits of a row at which an insertion finds an edge, or a deletion misses one.
fn refused_bits(inserts: bool, row: u64) -> u64
    ensures { RefusedBits inserts row result }
{
    if inserts {
        return row;
    }
    !row
}

// Whether the test holds of some place of the mask.
fn some_of<F: Fn(usize) -> bool>(mask: u64, test: F) -> bool
    requires { (k : ℕ) → bit mask k ≡ 1 → F.pre test k }
    ensures { Tells mask (F.post test) result }
{
    for k in Bits::of(mask) {
        if test(k) {
            return true;
        }
    }
    false
}

// Whether a count from x to a vertex of the mask is not 0.
#[tactic(auto, using(word::proofs::BitLaws::bit_one_lt))]
fn meets(sheet: View, x: usize, mask: u64) -> bool
    requires { (x < sheet.n) × (mask < 2 ^ sheet.n) }
    ensures { Reflects result (Meets sheet.entry.n sheet.entry.words.now mask x) }
{
    let counts = sheet.counts_from(x);
    some_of(mask, |k| counts[k] != 0)
}

// Whether a count from a vertex of the one mask to a vertex of the other is not 0.
#[tactic(auto, using(word::proofs::BitLaws::bit_one_lt))]
fn some_meets(sheet: View, starts: u64, ends: u64) -> bool
    requires { (starts < 2 ^ sheet.n) × (ends < 2 ^ sheet.n) }
    ensures { Reflects result (SomeOf sheet.entry.n starts (Meets sheet.entry.n sheet.entry.words.now ends)) }
{
    some_of(starts, |x| meets(sheet, x, ends))
}

// The edges of an edit, and the sheet that they are inserted into or deleted from.
#[derive(Clone, Copy)]
pub(crate) struct Asked<'a> {
    pub(crate) edges: EdgesAt,
    pub(crate) sheet: View<'a>,
    ghost same: { sheet.n ≡ edges.n },
}

impl<'a> Asked<'a> {
    // Whether an insertion finds one of the edges to v, or a deletion misses one.
    #[tactic(auto, using(word::proofs::BitLaws::bit_one_lt))]
    fn some_into(self) -> bool
        ensures { Reflects result (SomeOf self.entry.sheet.n self.entry.edges.predecessors (λ (i : ℕ). edge_at self.entry.sheet.words.now i self.entry.edges.v ≡ one_if self.entry.edges.inserts)) }
    {
        let edges = self.edges;
        some_of(
            edges.predecessors,
            |i| word::test_bit(refused_bits(edges.inserts, self.sheet.row(i)), edges.v),
        )
    }

    // Whether an insertion finds one of the edges, or a deletion misses one.
    fn some_edge(self) -> bool
        ensures { Reflects result (SomeEdge self.entry.sheet.n (at self.entry.edges.v self.entry.edges.predecessors self.entry.edges.successors) (λ (i j : ℕ). edge_at self.entry.sheet.words.now i j ≡ one_if self.entry.edges.inserts)) }
    {
        if self.some_into() {
            return true;
        }
        self.edges.successors & refused_bits(self.edges.inserts, self.sheet.row(self.edges.v)) != 0
    }

    // Whether the counts show a path that the edges would close to a cycle: from v to a predecessor, or from a successor to v or to a
    // predecessor.
    fn closes_cycle(self) -> bool
        ensures { Reflects result (Closes self.entry.sheet.n (count_at self.entry.sheet.n self.entry.sheet.words.now) self.entry.edges.v (bit self.entry.edges.predecessors) (bit self.entry.edges.successors)) }
    {
        let edges = self.edges;
        if meets(self.sheet, edges.v, edges.predecessors) {
            return true;
        }
        let ends = word::set_bit(edges.predecessors, edges.v);
        some_meets(self.sheet, edges.successors, ends)
    }

    // Why the edges can't be inserted, 5, 6 or 8; or why they can't be deleted, 7.
    pub(crate) fn check(self) -> Result<(), Refusal>
        ensures { EditNumber self.entry.edges.inserts self.entry.sheet.n (lent self.entry.sheet.words.now) self.entry.edges.v self.entry.edges.predecessors self.entry.edges.successors (number_of result) }
    {
        let edges = self.edges;
        if !edges.inserts {
            if self.some_edge() {
                return Err(Refusal::Absent);
            }
            return Ok(());
        }
        if word::test_bit(edges.predecessors, edges.v)
            || word::test_bit(edges.successors, edges.v)
        {
            return Err(Refusal::SelfLoop);
        }
        if self.some_edge() {
            return Err(Refusal::Present);
        }
        if self.closes_cycle() {
            return Err(Refusal::Cycle);
        }
        Ok(())
    }
}
