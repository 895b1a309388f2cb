// A topological order of the vertices by depth-first search: every edge leads to a vertex that is earlier in the order; or the finding
// that there is a cycle. The search goes along edges to vertices that are left until it is at a vertex from which no edge leads to one.
// That vertex is taken away and entered in the order, and the search goes on from the vertex before it. The vertices left are a mask, so
// a vertex is found by one step, and there are at most 2 n steps where there is no cycle.
#![tactic(auto)]

ghost use Rattle.std.specs.Prelude.{◌<◌, ◌^◌, MatchOption};
ghost use Rattle.graph.specs.Graph.{Cycle};
ghost use Rattle.sheet_theory.specs.Layout.{edge_at};
ghost use Rattle.sheet_theory.specs.Internal.{RowsBelow};
ghost use Rattle.order.specs.Internal.{Stack, Ahead, Descended, Ordered};

use arrayvec::ArrayVec;
use sheet::{Sheet, View};

// Where the search can go: along an edge from the last vertex of the stack to a vertex that is left; from an empty stack, to any that is
// left.
#[tactic(auto, using(crate::proofs::StackLaws::stack_laws))]
fn look_ahead(sheet: View, left: u64, stack: &[usize]) -> u64
    requires { (left < 2 ^ sheet.n) × (Stack sheet.n sheet.words.now left stack.now) }
    ensures { Ahead sheet.entry.words.now left stack.now result }
{
    match stack.last() {
        Some(v) => sheet.row(*v) & left,
        None => left,
    }
}

// Pushes vertices on the stack until no edge leads from the last one to a vertex that is left, and takes that one off the stack. None, if
// the stack would hold more than n vertices, so that one of them would stand in it twice.
#[tactic(auto, using(crate::proofs::StackLaws::stack_laws))]
fn descend(
    sheet: View,
    left: u64,
    stack: &mut ArrayVec<usize, { Sheet::VERTICES }>,
) -> Option<usize>
    requires { (0 < left) × (left < 2 ^ sheet.n) × (Stack sheet.n sheet.words.now left stack.old.items) }
    ensures { Descended sheet.entry.n sheet.entry.words.now left result stack.new.items }
{
    let mut ahead = look_ahead(sheet, left, stack);
    // A `while`: each turn makes the mask `ahead` anew, so no iterator stands for it.
    while ahead != 0 {
        if stack.len() == sheet.n {
            return None;
        }
        let v = word::highest_bit(ahead);
        stack.push(v);
        ahead = sheet.row(v) & left;
    }
    stack.pop()
}

// Internal: every vertex, each after those to which its edges lead. They stand in the vector that is lent: one that is handed out is copied,
// and `validate` takes a quarter longer on 4 vertices. None, if there is a cycle.
#[tactic(auto, using(crate::proofs::OrderLaws::order_laws))]
pub fn find_order<'o>(
    sheet: View,
    order: &'o mut ArrayVec<usize, { Sheet::VERTICES }>,
) -> Option<&'o [usize]>
    requires { RowsBelow sheet.n sheet.words.now }
    ensures { MatchOption result (Cycle sheet.entry.n (edge_at sheet.entry.words.now)) (λ l. Ordered sheet.entry.n sheet.entry.words.now l.now) }
{
    order.clear();
    let mut stack = ArrayVec::new();
    let mut left = word::low_bits(sheet.n);
    // A `while`: `descend` finds the vertex that a turn takes out of the mask `left`, so no iterator stands for it.
    while left != 0 {
        let last = descend(sheet, left, &mut stack)?;
        left = word::clear_bit(left, last);
        order.push(last);
    }
    Some(order.as_slice())
}
