// The C interface: each call on a sheet under a C name, with the contract of the call that it forwards to. include/lugloquat.h
// declares what this file exports; a slice crosses as a pointer and a number of words or bytes.
#![tactic(auto)]

ghost use Rattle.std.specs.Prelude.{◌≡◌, length};
ghost use Rattle.sheet_theory.specs.Lent.{lent};
ghost use Rattle.sheet_theory.specs.Calls.{empty_answer, empty_after, path_count_answer};
ghost use Rattle.recount_theory.specs.Calls.{Recount, Validate};
ghost use Rattle.edit_theory.specs.Edit.{insert_edge, delete_edge, insert_edges_at, delete_edges_at};
ghost use Rattle.edit_theory.specs.Outcome.{edit_answer, edit_after};
ghost use Rattle.query_theory.specs.ReachesWithout.{reaches_without_answer};
ghost use Rattle.query_theory.specs.Unrank.{unrank_answer, unrank_after};
ghost use Rattle.query_theory.specs.Rank.{rank_answer};
ghost use Rattle.plan_theory.specs.Calls.{ReadPlan, WritePlan};

use sheet::Answer;

// The empty sheet of n vertices, whatever the words were. Refused by 1, 2. The value is 0.
#[unsafe(no_mangle)]
pub extern "C" fn lugloquat_empty(n: usize, sheet: &mut [u64]) -> Answer
    ensures answer { result ≡ empty_answer n (lent sheet.old) }
    ensures words { lent sheet.new ≡ empty_after n (lent sheet.old) }
{
    sheet::empty(n, sheet)
}

// Inserts the edge from one vertex to another. Refused by 1, 2, 3, 5, 6, 8. The value is the number of set bits in all
// rows afterwards.
#[unsafe(no_mangle)]
pub extern "C" fn lugloquat_insert_edge(
    n: usize,
    sheet: &mut [u64],
    from: usize,
    to: usize,
) -> Answer
    ensures answer { result ≡ edit_answer (insert_edge n from to) (lent sheet.old) }
    ensures words { lent sheet.new ≡ edit_after (insert_edge n from to) (lent sheet.old) }
{
    edit::insert_edge(n, sheet, from, to)
}

// Deletes the edge from one vertex to another. Refused by 1, 2, 3, 7. The value is the number of set bits in all
// rows afterwards.
#[unsafe(no_mangle)]
pub extern "C" fn lugloquat_delete_edge(
    n: usize,
    sheet: &mut [u64],
    from: usize,
    to: usize,
) -> Answer
    ensures answer { result ≡ edit_answer (delete_edge n from to) (lent sheet.old) }
    ensures words { lent sheet.new ≡ edit_after (delete_edge n from to) (lent sheet.old) }
{
    edit::delete_edge(n, sheet, from, to)
}

// Inserts the edges from each vertex of one mask to v and from v to each vertex of the other. Refused by 1, 2, 3, 4, 5, 6, 8.
// The value is the number of set bits in all rows afterwards.
#[unsafe(no_mangle)]
pub extern "C" fn lugloquat_insert_edges_at(
    n: usize,
    sheet: &mut [u64],
    v: usize,
    predecessors: u64,
    successors: u64,
) -> Answer
    ensures answer { result ≡ edit_answer (insert_edges_at n v predecessors successors) (lent sheet.old) }
    ensures words { lent sheet.new ≡ edit_after (insert_edges_at n v predecessors successors) (lent sheet.old) }
{
    edit::insert_edges_at(n, sheet, v, predecessors, successors)
}

// Deletes the edges from each vertex of one mask to v and from v to each vertex of the other. Refused by 1, 2, 3, 4, 7.
// The value is the number of set bits in all rows afterwards.
#[unsafe(no_mangle)]
pub extern "C" fn lugloquat_delete_edges_at(
    n: usize,
    sheet: &mut [u64],
    v: usize,
    predecessors: u64,
    successors: u64,
) -> Answer
    ensures answer { result ≡ edit_answer (delete_edges_at n v predecessors successors) (lent sheet.old) }
    ensures words { lent sheet.new ≡ edit_after (delete_edges_at n v predecessors successors) (lent sheet.old) }
{
    edit::delete_edges_at(n, sheet, v, predecessors, successors)
}

// The count from one vertex to another as it stands in the sheet. Refused by 1, 2, 3. The value is the count.
#[unsafe(no_mangle)]
pub extern "C" fn lugloquat_path_count(n: usize, sheet: &[u64], from: usize, to: usize) -> Answer
    ensures answer { result ≡ path_count_answer n (lent sheet.now) from to }
{
    sheet::path_count(n, sheet, from, to)
}

// Whether the product of the counts to an edge and from it differs from the count between two vertices; on a valid sheet, whether
// there is a path between them that does not use the edge. Refused by 1, 2, 3, 7. The value is 1 or 0.
#[unsafe(no_mangle)]
pub extern "C" fn lugloquat_reaches_without(
    n: usize,
    sheet: &[u64],
    from: usize,
    to: usize,
    edge_from: usize,
    edge_to: usize,
) -> Answer
    ensures answer { result ≡ reaches_without_answer n (lent sheet.now) from to edge_from edge_to }
{
    query::reaches_without(n, sheet, from, to, edge_from, edge_to)
}

// The walk from one vertex to another by a rank, written to the first bytes of `path`, one byte a vertex.
// Refused by 1, 2, 3, 10, 11, 9. The value is the number of vertices written.
#[unsafe(no_mangle)]
pub extern "C" fn lugloquat_unrank(
    n: usize,
    sheet: &[u64],
    from: usize,
    to: usize,
    k: u64,
    path: &mut [u8],
) -> Answer
    ensures answer { result ≡ unrank_answer n (lent sheet.now) from to k (length path.old) }
    ensures bytes { path.new ≡ unrank_after n (lent sheet.now) from to k path.old }
{
    query::unrank(n, sheet, from, to, k, path)
}

// The counts passed over on a path, one byte a vertex, added up. Refused by 1, 2, 3, 12. The value is that sum.
#[unsafe(no_mangle)]
pub extern "C" fn lugloquat_rank(n: usize, sheet: &[u64], path: &[u8]) -> Answer
    ensures answer { result ≡ rank_answer n (lent sheet.now) path.now }
{
    query::rank(n, sheet, path)
}

// The records of a plan, applied one after the other to the sheet; if one is refused, those before it are undone.
// Refused by 1, 2, 9, 13, and at a record, whose place from 1 up is answered, by 14, 3, 5, 6, 7, 8. The value is the number of set
// bits in all rows afterwards.
#[unsafe(no_mangle)]
pub extern "C" fn lugloquat_read_plan(n: usize, sheet: &mut [u64], plan: &[u8]) -> Answer
    ensures read { ReadPlan n (lent sheet.old) plan.now result (lent sheet.new) }
{
    plan::read_plan(n, sheet, plan)
}

// The edges of a sheet as `L` records, ascending by from, then to, in the first bytes of `plan`. Refused by 1, 2, 9, 10.
// The value is the number of bytes written.
#[unsafe(no_mangle)]
pub extern "C" fn lugloquat_write_plan(n: usize, sheet: &[u64], plan: &mut [u8]) -> Answer
    ensures written { WritePlan n (lent sheet.now) plan.old result plan.new }
{
    plan::write_plan(n, sheet, plan)
}

// The counts worked out afresh from the rows. Refused by 1, 2, 4, 8. The value is the number of set bits in all rows.
#[unsafe(no_mangle)]
pub extern "C" fn lugloquat_recount(n: usize, sheet: &mut [u64]) -> Answer
    ensures recounted { Recount n (lent sheet.old) result (lent sheet.new) }
{
    recount::recount(n, sheet)
}

// Whether the sheet is valid, whoever wrote it. Refused by 1, 2. The value is 1 or 0.
#[unsafe(no_mangle)]
pub extern "C" fn lugloquat_validate(n: usize, sheet: &[u64]) -> Answer
    ensures tested { Validate n (lent sheet.now) result }
{
    recount::validate(n, sheet)
}
