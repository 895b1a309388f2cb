// The four edits of a sheet: one edge, or the edges at one vertex by two masks, inserted or deleted. They answer every n, every length,
// all words and all other arguments. A refusal changes no word and has the value 0; an accepted edit's value is the number of set bits in all
// rows afterwards.
#![tactic(auto)]

ghost use Rattle.std.specs.Prelude.{◌≡◌, ◌≤◌, [], IfOk};
ghost use Rattle.answer.specs.Table.{First};
ghost use Rattle.answer.specs.Answers.{answer_of, number_of};
ghost use Rattle.sheet_theory.specs.Layout.{most_vertices, Shape};
ghost use Rattle.sheet_theory.specs.Lent.{lent};
ghost use Rattle.edit_theory.specs.Edit.{edge_edit, insert_edge, delete_edge, insert_edges_at, delete_edges_at};
ghost use Rattle.edit_theory.specs.Table.{argued};
ghost use Rattle.edit_theory.specs.Outcome.{edit_answer, edit_after};
ghost use Rattle.edit_counts.specs.Internal.{Names};
ghost use Rattle.edit.specs.Internal.{Written, MadeAt, edges_of, edit_of};

mod checks;
mod rows;

use checks::Asked;
use edit_counts::EdgesAt;
use sheet::{Answer, Refusal, View};

// The edit, written: the counts, and then the rows. Gives the number of set bits in all rows afterwards.
// What writes a sheet takes n or the edges, which have n, and the words, here and below: the reason stands at `View`.
fn write_edit(edges: EdgesAt, sheet: &mut [u64]) -> u64
    requires { Shape edges.n sheet.old }
    ensures { Written edges.inserts edges.n sheet.old edges.v edges.predecessors edges.successors result sheet.new }
{
    edges.edit_counts(sheet);
    rows::edit_rows(edges, sheet);
    let lent = View {
        n: edges.n,
        words: sheet,
    };
    lent.set_bits()
}

// The edges of an edit as they arrive, beside n and whether they are inserted: once they are checked, an `EdgesAt` has it all.
#[derive(Clone, Copy)]
enum Named {
    // The one from the first vertex to the second.
    One(usize, usize),
    // At a vertex, those from the vertices of the first mask and those to the vertices of the second.
    At(usize, u64, u64),
}

impl Named {
    // The same edges, once n is known to be at most 64. Or why they are refused, 3 or 4.
    fn edges(self, inserts: bool, n: usize) -> Result<EdgesAt, Refusal>
        requires { n ≤ most_vertices }
        ensures number { First (argued n (edges_of self) []) (number_of result) }
        ensures edges { IfOk result (λ e. Names (edit_of inserts n self) e.inserts e.n e.v e.predecessors e.successors) }
    {
        match self {
            Named::One(from, to) => EdgesAt::edge(inserts, n, from, to),
            Named::At(v, predecessors, successors) => {
                EdgesAt::masks(inserts, n, v, predecessors, successors)
            }
        }
    }
}

// The edit, once 1 to 4 are past: refused by 5, 6, 8 or by 7, else made.
fn edit_at(edges: EdgesAt, sheet: &mut [u64]) -> Result<u64, Refusal>
    requires { Shape edges.n sheet.old }
    ensures { MadeAt edges (lent sheet.old) (answer_of result) (lent sheet.new) }
{
    let lent = View {
        n: edges.n,
        words: sheet,
    };
    let asked = Asked { edges, sheet: lent };
    asked.check()?;
    Ok(write_edit(edges, sheet))
}

// The edges that are named, inserted or deleted. It is inlined, so that each call knows how its edges are named: otherwise a deletion of one
// edge takes up to a tenth longer.
#[inline(always)]
fn edit_named(inserts: bool, n: usize, sheet: &mut [u64], named: Named) -> Result<u64, Refusal>
    ensures answer { answer_of result ≡ edit_answer (edit_of inserts n named) (lent sheet.old) }
    ensures words { lent sheet.new ≡ edit_after (edit_of inserts n named) (lent sheet.old) }
{
    sheet::checks::altering(n, sheet)?;
    let edges = named.edges(inserts, n)?;
    edit_at(edges, sheet)
}

// Internal: one edge, inserted or deleted.
pub fn edit_edge(
    inserts: bool,
    n: usize,
    sheet: &mut [u64],
    from: usize,
    to: usize,
) -> Result<u64, Refusal>
    ensures answer { answer_of result ≡ edit_answer (edge_edit inserts n from to) (lent sheet.old) }
    ensures words { lent sheet.new ≡ edit_after (edge_edit inserts n from to) (lent sheet.old) }
{
    edit_named(inserts, n, sheet, Named::One(from, to))
}

// The edge from one vertex to another, inserted. Refused by 1, 2, 3, 5, 6, 8.
pub fn insert_edge(n: usize, sheet: &mut [u64], from: usize, to: usize) -> Answer
    ensures answer { result ≡ edit_answer (insert_edge n from to) (lent sheet.old) }
    ensures words { lent sheet.new ≡ edit_after (insert_edge n from to) (lent sheet.old) }
{
    edit_edge(true, n, sheet, from, to).into()
}

// The edge from one vertex to another, deleted. Refused by 1, 2, 3, 7.
pub fn delete_edge(n: usize, sheet: &mut [u64], from: usize, to: usize) -> Answer
    ensures answer { result ≡ edit_answer (delete_edge n from to) (lent sheet.old) }
    ensures words { lent sheet.new ≡ edit_after (delete_edge n from to) (lent sheet.old) }
{
    edit_edge(false, n, sheet, from, to).into()
}

// The edges from the vertices of the mask predecessors to v and from v to those of the mask successors, inserted all at once.
// Refused by 1, 2, 3, 4, 5, 6, 8.
pub fn insert_edges_at(
    n: usize,
    sheet: &mut [u64],
    v: usize,
    predecessors: u64,
    successors: u64,
) -> Answer
    ensures answer { result ≡ edit_answer (insert_edges_at n v predecessors successors) (lent sheet.old) }
    ensures words { lent sheet.new ≡ edit_after (insert_edges_at n v predecessors successors) (lent sheet.old) }
{
    edit_named(true, n, sheet, Named::At(v, predecessors, successors)).into()
}

// The same edges, deleted all at once. Refused by 1, 2, 3, 4, 7.
pub fn delete_edges_at(
    n: usize,
    sheet: &mut [u64],
    v: usize,
    predecessors: u64,
    successors: u64,
) -> Answer
    ensures answer { result ≡ edit_answer (delete_edges_at n v predecessors successors) (lent sheet.old) }
    ensures words { lent sheet.new ≡ edit_after (delete_edges_at n v predecessors successors) (lent sheet.old) }
{
    edit_named(false, n, sheet, Named::At(v, predecessors, successors)).into()
}
