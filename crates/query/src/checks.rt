// What is looked for before a rank, past the shape of the sheet, in the order of document 01's table.
ghost use Rattle.std.specs.Prelude.{◌≡◌, ◌<◌};
ghost use Rattle.answer.specs.Answers.{number_of};
ghost use Rattle.answer.specs.Table.{First, Reflects};
ghost use Rattle.sheet_theory.specs.Lent.{lent};
ghost use Rattle.query_theory.specs.Rank.{SomeNoVertex, Broken, path_conditions};
ghost use Rattle.query.specs.Internal.{Vertices};

use sheet::{Refusal, View};

// Whether some byte is n or more.
fn has_no_vertex(n: usize, path: &[u8]) -> bool
    ensures { Reflects result (SomeNoVertex n path.now) }
{
    // A loop and not `any`, which takes an instruction more a byte.
    for vertex in path {
        if n <= usize::from(*vertex) {
            return true;
        }
    }
    false
}

// Whether there are no vertices, more than n, or two neighbours without an edge.
fn is_broken(sheet: View, path: &[u8]) -> bool
    requires { Vertices sheet.n path.now }
    ensures { Reflects result (Broken sheet.entry.n sheet.entry.words.now path.now) }
{
    if path.is_empty() || sheet.n < path.len() {
        return true;
    }
    for (here, next) in path.iter().zip(&path[1..]) {
        if !sheet.has_edge(usize::from(*here), usize::from(*next)) {
            return true;
        }
    }
    false
}

// Whether the rank of a path may be asked for, or why not: 3, 12.
pub(crate) fn check_path(sheet: View, path: &[u8]) -> Result<(), Refusal>
    ensures { First (path_conditions sheet.entry.n (lent sheet.entry.words.now) path.now) (number_of result) }
{
    if has_no_vertex(sheet.n, path) {
        return Err(Refusal::Vertex);
    }
    if is_broken(sheet, path) {
        return Err(Refusal::NoPath);
    }
    Ok(())
}
