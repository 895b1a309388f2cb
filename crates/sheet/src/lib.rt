// Sheets of path counts: the adjacency rows of an acyclic graph and the number of paths between every two vertices, in the
// words of a lent slice. The calls of this file answer every n, every length and all words.
#![tactic(auto)]

ghost use Rattle.std.specs.Prelude.{◌≡◌};
ghost use Rattle.answer.specs.Answers.{answer_of};
ghost use Rattle.sheet_theory.specs.Lent.{lent};
ghost use Rattle.sheet_theory.specs.Calls.{empty_answer, empty_after, path_count_answer};

pub mod checks;
mod fill;
pub mod layout;
pub mod view;
pub mod words;

pub use answer::{Answer, Refusal};
pub use layout::Sheet;
pub use view::View;

// The empty sheet of n vertices, whatever the words were. Refused by 1, 2. The value is 0.
pub fn empty(n: usize, sheet: &mut [u64]) -> Answer
    ensures answer { result ≡ empty_answer n (lent sheet.old) }
    ensures words { lent sheet.new ≡ empty_after n (lent sheet.old) }
{
    make_empty(n, sheet).into()
}

// The work of `empty`. What writes a sheet takes n and the words: the reason stands at `View`.
fn make_empty(n: usize, sheet: &mut [u64]) -> Result<u64, Refusal>
    ensures answer { answer_of result ≡ empty_answer n (lent sheet.old) }
    ensures words { lent sheet.new ≡ empty_after n (lent sheet.old) }
{
    checks::altering(n, sheet)?;
    fill::fill_empty(n, sheet);
    Ok(0)
}

// The count from one vertex to another as it stands in the sheet; on a valid sheet, the number of paths. Refused by 1, 2, 3.
pub fn path_count(n: usize, sheet: &[u64], from: usize, to: usize) -> Answer
    ensures answer { result ≡ path_count_answer n (lent sheet.now) from to }
{
    stored_count(n, sheet, from, to).into()
}

// The work of `path_count`. It takes what the call takes, as the work of each call does, since `?` is what leaves `View::of`.
fn stored_count(n: usize, sheet: &[u64], from: usize, to: usize) -> Result<u64, Refusal>
    ensures { answer_of result ≡ path_count_answer n (lent sheet.now) from to }
{
    let sheet = View::of(n, sheet)?;
    sheet.check_vertices(from, to)?;
    Ok(sheet.count(from, to))
}
