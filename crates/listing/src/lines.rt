// The lines of a listing, put into a buffer from a place on. The place goes beside the buffer, as `text::put` says. The buffer is the
// caller's: an `ArrayVec` would be a second one of that size, and `io::Write` for a slice promises how many bytes it puts, but not which.
ghost use Rattle.std.specs.Prelude.{◌≡◌, ◌++◌, ◌+◌, ◌≤◌, ◌<◌, length};
ghost use Rattle.text.specs.Text.{Put};
ghost use Rattle.answer.specs.Answers.{number_of_refusal, answer_at};
ghost use Rattle.sheet_theory.specs.Layout.{most_vertices};
ghost use Rattle.sheet_theory.specs.Lent.{lent};
ghost use Rattle.listing_theory.specs.Lines.{decimal, pipes_line, refused_line, count_line, pair_line, lines_from, count_lines, printed, most_listed};

use crate::digits;
use answer::RefusedAt;
use sheet::{Refusal, Sheet, View};

// A label and a decimal.
fn put_labelled(out: &mut [u8], at: usize, label: &[u8], x: u64) -> usize
    requires { at + length (label.now ++ decimal x) ≤ length out.old }
    ensures { Put out.old at (label.now ++ decimal x) out.new result }
{
    let first = text::put(out, at, label);
    digits::put(out, first, x)
}

// `pipes` and their number.
fn put_pipes(out: &mut [u8], at: usize, edges: u64) -> usize
    requires { at + length (pipes_line edges) ≤ length out.old }
    ensures { Put out.old at (pipes_line edges) out.new result }
{
    let first = put_labelled(out, at, b"pipes ", edges);
    text::put(out, first, b"\n")
}

// `record`, the place, `refused`, the refusal's number.
fn put_refused(out: &mut [u8], at: usize, place: u64, refusal: Refusal) -> usize
    requires { at + length (refused_line place (number_of_refusal refusal)) ≤ length out.old }
    ensures { Put out.old at (refused_line place (number_of_refusal refusal)) out.new result }
{
    let first = put_labelled(out, at, b"record ", place);
    let second = put_labelled(out, first, b" refused ", refusal.number());
    text::put(out, second, b"\n")
}

// i, j and the count between them.
fn put_count(i: usize, j: usize, count: u64, out: &mut [u8], at: usize) -> usize
    requires { (i < most_vertices) × (j < most_vertices) × (at + length (count_line i j count) ≤ length out.old) }
    ensures { Put out.old at (count_line i j count) out.new result }
{
    let ends = [
        text::tens(i),
        text::ones(i),
        b' ',
        text::tens(j),
        text::ones(j),
        b' ',
    ];
    let first = put_labelled(out, at, &ends, count);
    text::put(out, first, b"\n")
}

// The line of i and j, if they differ and have a count above 0.
fn put_pair(sheet: &Sheet, i: usize, j: usize, out: &mut [u8], at: usize) -> usize
    requires { (i < most_vertices) × (j < most_vertices) × (at + length (pair_line sheet.now.words i j) ≤ length out.old) }
    ensures { Put out.old at (pair_line sheet.now.words i j) out.new result }
{
    let read = View {
        n: Sheet::VERTICES,
        words: &sheet.words,
    };
    let count = read.count(i, j);
    if i == j || count == 0 {
        return at;
    }
    put_count(i, j, count, out, at)
}

// The lines of i.
fn put_lines_from(sheet: &Sheet, i: usize, out: &mut [u8], at: usize) -> usize
    requires { (i < most_vertices) × (at + length (lines_from sheet.now.words i) ≤ length out.old) }
    ensures { Put out.old at (lines_from sheet.now.words i) out.new result }
{
    let mut place = at;
    for j in 0..Sheet::VERTICES {
        place = put_pair(sheet, i, j, out, place);
    }
    place
}

// The lines of all vertices.
fn put_lines(sheet: &Sheet, out: &mut [u8], at: usize) -> usize
    requires { at + length (count_lines sheet.now.words) ≤ length out.old }
    ensures { Put out.old at (count_lines sheet.now.words) out.new result }
{
    let mut place = at;
    for i in 0..Sheet::VERTICES {
        place = put_lines_from(sheet, i, out, place);
    }
    place
}

// What is printed of a plan that has this outcome and has left the sheet, in the first places: how many bytes it has.
pub(crate) fn write(outcome: Result<u64, RefusedAt>, sheet: &Sheet, out: &mut [u8]) -> usize
    requires { most_listed ≤ length out.old }
    ensures { Put out.old 0 (printed (answer_at outcome) (lent sheet.now.words)) out.new result }
{
    match outcome {
        Ok(edges) => {
            let first = put_pipes(out, 0, edges);
            put_lines(sheet, out, first)
        }
        Err(refused) => put_refused(out, 0, refused.place.unwrap_or(0), refused.refusal),
    }
}
