// Runs the cases of a script from standard input through the public calls of the crates sheet, recount, edit, query and plan, and prints
// what the calls answer. The program knows no case and no answer: the cases stand in the file stdin beside it, the answers in stdout.
//
// A line of the script is a command, with one space between two words. Numbers are decimal, of 64 bits. A line that is empty or begins
// with `#` is skipped. One that is no such command, or has a number that is too great for a buffer, ends the program with a line that
// says which it is. A script of 65,536 bytes or more is not taken.
//
//     heading TEXT         prints the text
//     n N                  the number of vertices in the calls from here on
//     words COUNT VALUE    lends the calls COUNT words, each VALUE
//     put K VALUE ..       stores the values in the lent words, from word K on
//     bytes COUNT VALUE    lends the calls COUNT bytes, each VALUE
//     plan TEXT            lends the calls the bytes of the text, with a line feed in place of each `/`
//     keep                 keeps the lent words, and
//     same                 prints whether they are the same words at this point: 1 or 0
//     show_sizes           prints the number of vertices and of lent words
//     show_words           prints the lent words
//     show_bytes           prints the lent bytes by their numbers, and
//     show_text            as text
//     show_limits          prints the constants of the type `Sheet`
//     NAME NUMBER ..       a call by its name and what it is asked: prints this line and the answer. After a call that may write words
//                          a second line says whether it left every word as it was: 1 or 0. What `read_plan` and `write_plan` are asked
//                          is how many of the lent bytes they get, and what `rank` is asked is the path.
//     quiet NAME ..        a call without its lines
//     made NAME ..         a call that writes no word, of the sheet of 64 vertices that `Sheet::new()` makes
#![tactic(auto)]

mod calls;
mod command;
mod fault;
mod lent;
mod show;

use arrayvec::ArrayVec;
use command::{Command, Numbers};
use fault::Fault;
use lent::Lent;
use sheet::Sheet;
use std::io;

// The most numbers of `put`: a place, and a value for each word that can be lent.
const PUT: usize = 1 + lent::WORDS;

// Values stored in the lent words, from a place on: a place and one value or more, which are the numbers of a line.
// It is not inlined, so that the numbers take stack only while it runs.
#[inline(never)]
fn put(line: &[u8], lent: &mut Lent) -> Result<(), Fault> {
    let mut numbers = ArrayVec::<usize, PUT>::new();
    command::read_numbers(line, &mut numbers)?;
    match numbers.as_slice() {
        &[place, ref values @ ..] if !values.is_empty() => lent.put(place, values),
        _ => Err(Fault::NotACommand),
    }
}

// A command that is a name with numbers. A number that is stored as a word is cast: from `usize` to `u64` there is no `From`.
fn obey_command(
    rt: &impl Print,
    line: &[u8],
    room: &mut Numbers,
    lent: &mut Lent,
) -> Result<(), Fault> {
    let command = Command::parse(line, room)?;
    match command.parts() {
        (b"n", &[n]) => lent.vertices = n,
        (b"words", &[count, value]) => lent.lend_words(count, value as u64)?,
        (b"put", _) => put(line, lent)?,
        (b"bytes", &[count, value]) => lent.lend_bytes(count, u8::try_from(value)?)?,
        (b"keep", []) => lent.keep(),
        (b"same", []) => println!(rt; "same words {}", u8::from(lent.are_kept()))?,
        (b"show_sizes", []) => {
            println!(rt; "vertices {} words {}", lent.vertices, lent.words.len())?
        }
        (b"show_words", []) => show::numbers(rt, "words", lent.words.as_slice())?,
        (b"show_bytes", []) => show::numbers(rt, "bytes", lent.bytes.as_slice())?,
        (b"show_text", []) => show::bytes(rt, lent.bytes.as_slice())?,
        (b"show_limits", []) => {
            println!(rt;
                "vertices {} words {} edges {}",
                Sheet::VERTICES,
                Sheet::WORDS,
                Sheet::EDGES
            )?
        }
        _ => calls::shown(rt, line, command, lent)?,
    }
    Ok(())
}

// A line of the script obeyed. Text stands after some names; numbers, if any, after the others.
fn obey(rt: &impl Print, line: &[u8], room: &mut Numbers, lent: &mut Lent) -> Result<(), Fault> {
    let text = command::text(line);
    match command::name(line) {
        b"heading" => show::bytes(rt, text)?,
        b"plan" => lent.lend_plan(text)?,
        b"quiet" => calls::quiet(text, room, lent)?,
        b"made" => calls::made(rt, text, room, lent.bytes.as_mut_slice())?,
        _ => obey_command(rt, line, room, lent)?,
    }
    Ok(())
}

// A piece of the script up to a line feed: its line obeyed, if it is not one to skip. No command is without its line feed.
fn obey_piece(
    rt: &impl Print,
    piece: &[u8],
    room: &mut Numbers,
    lent: &mut Lent,
) -> Result<(), Fault> {
    match piece.strip_suffix(b"\n") {
        None => Err(Fault::NotACommand),
        Some([] | [b'#', ..]) => Ok(()),
        Some(line) => obey(rt, line, room, lent),
    }
}

// The lines of a script, obeyed in order, up to the first that is no command.
fn run(rt: &impl Print, text: &[u8]) -> io::Result<()> {
    let mut room = Numbers::new();
    let mut lent = Lent::new();
    for (k, piece) in (1..).zip(text.split_inclusive(|byte| *byte == b'\n')) {
        match obey_piece(rt, piece, &mut room, &mut lent) {
            Ok(()) => {}
            Err(Fault::NotACommand) => return println!(rt; "not a command: line {k}"),
            Err(Fault::Io(error)) => return Err(error),
        }
    }
    Ok(())
}

fn main(rt: HostRuntime) -> io::Result<()> {
    script::with_input(&rt, |text| run(&rt, text))
}
