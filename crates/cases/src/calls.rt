// The public calls, by the lines of the script. The numbers of a line are cast to masks and ranks: from `usize` to `u64` there is no `From`.
use crate::command::{self, Command, Numbers};
use crate::fault::Fault;
use crate::lent::{self, Lent};
use crate::show;
use arrayvec::ArrayVec;
use sheet::{Answer, Sheet};

// The most vertices of a path in a line: with each stands a space, and the whole input is shorter than its buffer.
const PATH: usize = script::INPUT / 2;

// The answer of a call that may write words.
fn edit(call: Command<'_>, lent: &mut Lent) -> Option<Answer> {
    let (n, words) = (lent.vertices, lent.words.as_mut_slice());
    Some(match call.parts() {
        (b"empty", []) => sheet::empty(n, words),
        (b"insert_edge", &[from, to]) => edit::insert_edge(n, words, from, to),
        (b"delete_edge", &[from, to]) => edit::delete_edge(n, words, from, to),
        (b"insert_edges_at", &[v, predecessors, successors]) => {
            edit::insert_edges_at(n, words, v, predecessors as u64, successors as u64)
        }
        (b"delete_edges_at", &[v, predecessors, successors]) => {
            edit::delete_edges_at(n, words, v, predecessors as u64, successors as u64)
        }
        (b"recount", []) => recount::recount(n, words),
        (b"read_plan", &[count]) => plan::read_plan(n, words, lent.bytes.as_slice().get(..count)?),
        _ => return None,
    })
}

// The rank of the path whose vertices are the numbers of a line.
fn rank(n: usize, words: &[u64], line: &[u8]) -> Result<Answer, Fault> {
    let mut path = ArrayVec::<u8, PATH>::new();
    command::read_numbers(line, &mut path)?;
    Ok(query::rank(n, words, path.as_slice()))
}

// The answer of a call that writes no word, of the sheet of these words.
fn ask(call: Command<'_>, n: usize, words: &[u64], bytes: &mut [u8]) -> Result<Answer, Fault> {
    Ok(match call.parts() {
        (b"path_count", &[from, to]) => sheet::path_count(n, words, from, to),
        (b"validate", []) => recount::validate(n, words),
        (b"reaches_without", &[from, to, i, j]) => {
            query::reaches_without(n, words, from, to, i, j)
        }
        (b"unrank", &[from, to, k]) => query::unrank(n, words, from, to, k as u64, bytes),
        (b"rank", _) => rank(n, words, call.line())?,
        (b"write_plan", &[count]) => {
            let plan = bytes.get_mut(..count).ok_or(Fault::NotACommand)?;
            plan::write_plan(n, words, plan)
        }
        _ => return Err(Fault::NotACommand),
    })
}

// The answer of a call that writes no word, of the lent words.
fn ask_lent(call: Command<'_>, lent: &mut Lent) -> Result<Answer, Fault> {
    ask(
        call,
        lent.vertices,
        lent.words.as_slice(),
        lent.bytes.as_mut_slice(),
    )
}

// A call with its lines: its line of the script with the answer, and, if it may write words, whether they are as before.
// It is not inlined, so that its copy of the words takes stack only while it runs.
#[inline(never)]
pub fn shown(
    rt: &impl Print,
    line: &[u8],
    call: Command<'_>,
    lent: &mut Lent,
) -> Result<(), Fault> {
    let mut before = [0; lent::WORDS];
    let words = lent.words.as_slice();
    before[..words.len()].copy_from_slice(words);
    if let Some(answer) = edit(call, lent) {
        show::answer(rt, line, answer)?;
        println!(rt;
            "unchanged {}",
            u8::from(before.starts_with(lent.words.as_slice()))
        )?;
    } else {
        let answer = ask_lent(call, lent)?;
        show::answer(rt, line, answer)?;
    }
    Ok(())
}

// A call without its lines.
pub fn quiet(line: &[u8], room: &mut Numbers, lent: &mut Lent) -> Result<(), Fault> {
    let call = Command::parse(line, room)?;
    if edit(call, lent).is_none() {
        ask_lent(call, lent)?;
    }
    Ok(())
}

// The words of the sheet that the library makes, put in what is lent. It is not inlined, so that what is copied on the way takes stack only
// while it runs.
#[inline(never)]
fn put_made(words: &mut [u64; Sheet::WORDS]) {
    let sheet = Sheet::new();
    words.copy_from_slice(&sheet.words);
}

// The answer of a call that writes no word, of the sheet that the library makes.
// It is not inlined, so that the sheet takes stack only while it runs.
#[inline(never)]
fn ask_made(call: Command<'_>, bytes: &mut [u8]) -> Result<Answer, Fault> {
    let mut words = [0; Sheet::WORDS];
    put_made(&mut words);
    ask(call, Sheet::VERTICES, &words, bytes)
}

// A call that writes no word, of the sheet that the library makes, with its line.
pub fn made(
    rt: &impl Print,
    line: &[u8],
    room: &mut Numbers,
    bytes: &mut [u8],
) -> Result<(), Fault> {
    let call = Command::parse(line, room)?;
    let answer = ask_made(call, bytes)?;
    show::answer(rt, line, answer)?;
    Ok(())
}
