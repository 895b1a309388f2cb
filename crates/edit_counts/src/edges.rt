// The edges of an edit, once its arguments are in order.
ghost use Rattle.std.specs.Prelude.{◌≤◌, ◌<◌, ◌^◌, [], IfOk};
ghost use Rattle.answer.specs.Table.{First};
ghost use Rattle.answer.specs.Answers.{number_of};
ghost use Rattle.sheet_theory.specs.Layout.{most_vertices};
ghost use Rattle.edit_theory.specs.Edit.{one, at, edge_edit, edges_edit};
ghost use Rattle.edit_theory.specs.Table.{argued};
ghost use Rattle.edit_counts.specs.Internal.{Names};

use answer::Refusal;

// The edges at a vertex v of a sheet of n vertices that are inserted or deleted: those from the vertices of the mask predecessors to v
// and those from v to the vertices of the mask successors. Whether they are inserted is a flag, as in the formulas of the contracts. A type
// for each direction, as `Combine` has for adding and taking off, would be a trait of five functions in two impls and a type parameter at
// every function over the edges, in place of five `if`s.
#[derive(Clone, Copy)]
pub struct EdgesAt {
    pub inserts: bool,
    pub n: usize,
    pub v: usize,
    pub predecessors: u64,
    pub successors: u64,
    ghost vertex_fits: { v < n },
    ghost predecessors_fit: { predecessors < 2 ^ n },
    ghost successors_fit: { successors < 2 ^ n },
}

impl EdgesAt {
    // Internal: the edge from one vertex to another: at its start, with no predecessor and its end for the one successor. Or 3 if there is
    // no such vertex. The test is that of `View::check_vertices`; here there is no view, since the sheet is to be written.
    pub fn edge(inserts: bool, n: usize, from: usize, to: usize) -> Result<EdgesAt, Refusal>
        requires { n ≤ most_vertices }
        ensures number { First (argued n (one from to) []) (number_of result) }
        ensures edges { IfOk result (λ e. Names (edge_edit inserts n from to) e.inserts e.n e.v e.predecessors e.successors) }
    {
        if n <= from || n <= to {
            return Err(Refusal::Vertex);
        }
        Ok(EdgesAt {
            inserts,
            n,
            v: from,
            predecessors: 0,
            successors: 1 << to,
        })
    }

    // Internal: the edges at v by masks. Or 3 if there is no vertex v, else 4 if a mask has a bit at n or above.
    pub fn masks(
        inserts: bool,
        n: usize,
        v: usize,
        predecessors: u64,
        successors: u64,
    ) -> Result<EdgesAt, Refusal>
        ensures number { First (argued n (at v predecessors successors) []) (number_of result) }
        ensures edges { IfOk result (λ e. Names (edges_edit inserts n v predecessors successors) e.inserts e.n e.v e.predecessors e.successors) }
    {
        if n <= v {
            return Err(Refusal::Vertex);
        }
        if !word::within(predecessors, n) || !word::within(successors, n) {
            return Err(Refusal::StrayBit);
        }
        Ok(EdgesAt {
            inserts,
            n,
            v,
            predecessors,
            successors,
        })
    }
}
