// Questions of a sheet: whether there is a path without an edge, the path of a rank, and the rank of a path. The calls of this
// file answer every n, every length, all words and all bytes.
#![tactic(auto)]

ghost use Rattle.std.specs.Prelude.{◌≡◌, ◌<◌, length};
ghost use Rattle.answer.specs.Answers.{answer_of};
ghost use Rattle.sheet_theory.specs.Lent.{lent};
ghost use Rattle.query_theory.specs.ReachesWithout.{reaches_without_answer};
ghost use Rattle.query_theory.specs.Unrank.{unrank_answer, unrank_after};
ghost use Rattle.query_theory.specs.Rank.{rank_answer};

mod checks;
mod passed;
mod walk;
mod without;

use arrayvec::ArrayVec;
use sheet::{Answer, Refusal, View};
use walk::ByRank;
use without::WithoutEdge;

// Whether the product of the counts to an edge and from it differs from the count between two vertices; on a valid sheet, whether
// there is a path between them that does not use the edge (document 01: supply without a pipe).
// Refused by 1, 2, 3, 7. The value is 1 or 0.
pub fn reaches_without(
    n: usize,
    sheet: &[u64],
    from: usize,
    to: usize,
    edge_from: usize,
    edge_to: usize,
) -> Answer
    ensures answer { result ≡ reaches_without_answer n (lent sheet.now) from to edge_from edge_to }
{
    let asked = WithoutEdge {
        from,
        to,
        edge_from,
        edge_to,
    };
    product_differs(n, sheet, asked).into()
}

// The work of `reaches_without`.
fn product_differs(n: usize, sheet: &[u64], asked: WithoutEdge) -> Result<u64, Refusal>
    ensures { answer_of result ≡ reaches_without_answer n (lent sheet.now) asked.from asked.to asked.edge_from asked.edge_to }
{
    let sheet = View::of(n, sheet)?;
    asked.check(sheet)?;
    Ok(u64::from(asked.product(sheet) != sheet.count(asked.from, asked.to)))
}

// The walk from one vertex to another by the rank k, written to the first bytes of `path`, one byte a vertex (document 01: a
// route by number); on a valid sheet, the path that has k paths before it.
// Refused by 1, 2, 3, 10, 11, 9. The value is the number of vertices written.
pub fn unrank(n: usize, sheet: &[u64], from: usize, to: usize, k: u64, path: &mut [u8]) -> Answer
    ensures answer { result ≡ unrank_answer n (lent sheet.now) from to k (length path.old) }
    ensures bytes { path.new ≡ unrank_after n (lent sheet.now) from to k path.old }
{
    write_walk(n, sheet, ByRank { from, to, k }, path).into()
}

// The work of `unrank`.
fn write_walk(n: usize, sheet: &[u64], asked: ByRank, path: &mut [u8]) -> Result<u64, Refusal>
    ensures answer { answer_of result ≡ unrank_answer n (lent sheet.now) asked.from asked.to asked.k (length path.old) }
    ensures bytes { path.new ≡ unrank_after n (lent sheet.now) asked.from asked.to asked.k path.old }
{
    let sheet = View::of(n, sheet)?;
    asked.check(sheet, path.len())?;

    let mut room = ArrayVec::new();
    let walk = asked.walk(sheet, &mut room).ok_or(Refusal::NotValid)?;
    path[..walk.len()].copy_from_slice(walk);

    // The length is cast: from `usize` to `u64` there is no `From`.
    Ok(walk.len() as u64)
}

// The counts passed over on a path, one byte a vertex, added up (document 01: the number of a route); on a valid sheet, of a path
// the number of paths before it. Refused by 1, 2, 3, 12; 3 is looked for in every byte. The value is that sum.
pub fn rank(n: usize, sheet: &[u64], path: &[u8]) -> Answer
    ensures answer { result ≡ rank_answer n (lent sheet.now) path.now }
{
    rank_of_path(n, sheet, path).into()
}

// The work of `rank`.
fn rank_of_path(n: usize, sheet: &[u64], path: &[u8]) -> Result<u64, Refusal>
    ensures { answer_of result ≡ rank_answer n (lent sheet.now) path.now }
{
    let sheet = View::of(n, sheet)?;
    checks::check_path(sheet, path)?;
    Ok(passed::path_rank(sheet, path))
}
