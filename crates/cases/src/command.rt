// The words of a line, and the commands that are a name with numbers.
use crate::fault::Fault;
use arrayvec::ArrayVec;

// The most numbers of a command other than `put` and `rank`.
const NUMBERS: usize = 4;

// Room for the numbers of such a command. It is lent to the commands, so that they are handed on without moving the numbers; and it stands
// beside `Lent`, since a command holds it while what is lent is written.
pub type Numbers = ArrayVec<usize, NUMBERS>;

// Whether a byte stands between two words.
fn is_space(byte: &u8) -> bool {
    *byte == b' '
}

// The first word of a line.
pub fn name(line: &[u8]) -> &[u8] {
    line.split(is_space).next().unwrap_or_default()
}

// What stands after the first word of a line, and after the space that ends it.
pub fn text(line: &[u8]) -> &[u8] {
    line.splitn(2, is_space).nth(1).unwrap_or_default()
}

// Replaces what is in a room by the numbers of a line: the words after its first, which have to be decimals that the room takes.
pub fn read_numbers<N: TryFrom<usize> + Default + Drop, const MOST: usize>(
    line: &[u8],
    room: &mut ArrayVec<N, MOST>,
) -> Result<(), Fault>
where
    N::Error: Drop,
{
    room.clear();
    for word in line.split(is_space).skip(1) {
        let number = script::decimal(word).ok_or(Fault::NotACommand)?;
        room.try_push(N::try_from(number).ok().ok_or(Fault::NotACommand)?)?;
    }
    Ok(())
}

// A line, and the numbers after its name.
#[derive(Clone, Copy)]
pub struct Command<'a> {
    line: &'a [u8],
    numbers: &'a [usize],
}

impl<'a> Command<'a> {
    // The command of a line. Its numbers are written to the room; but those of `put` and `rank`, which may be more, stay in the line.
    pub fn parse(line: &'a [u8], room: &'a mut Numbers) -> Result<Command<'a>, Fault> {
        match name(line) {
            b"put" | b"rank" => room.clear(),
            _ => read_numbers(line, room)?,
        }
        Ok(Command {
            line,
            numbers: room.as_slice(),
        })
    }

    // The name and the numbers, to be matched.
    pub fn parts(self) -> (&'a [u8], &'a [usize]) {
        (name(self.line), self.numbers)
    }

    // The whole line.
    pub fn line(self) -> &'a [u8] {
        self.line
    }
}
