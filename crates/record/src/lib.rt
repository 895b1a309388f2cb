// The records of a plan, 8 bytes each: the capital letter, a space, two digits, a space, two digits, a line feed. They are written
// and read, and a reader goes over those of a plan.
#![tactic(auto)]

ghost use Rattle.std.specs.Prelude.{◌≡◌, ◌<◌, cond, Ok, Err, take};
ghost use Rattle.record.specs.Record.{record_bytes, encoded, malformed, are_digits, from_digits, decoded};

pub mod reader;

// What a record says.
#[derive(Clone, Copy, Debug, PartialEq, Eq)]
pub enum Record {
    // `L`: inserts the edge from the first vertex to the second.
    Insert(usize, usize),
    // `T`: deletes it.
    Delete(usize, usize),
}

impl Record {
    // The bytes of a record.
    pub const BYTES: usize = 8;
}

// Why bytes say no record: they are not of the form of one.
#[derive(Clone, Copy, Debug, PartialEq, Eq)]
pub struct Malformed;

// Internal: the record of a letter and two numbers below 100.
pub fn encode(letter: u8, from: usize, to: usize) -> [u8; Record::BYTES]
    requires { (from < 100) × (to < 100) }
    ensures { result ≡ encoded letter from to }
{
    [
        letter,
        b' ',
        text::tens(from),
        text::ones(from),
        b' ',
        text::tens(to),
        text::ones(to),
        b'\n',
    ]
}

// What two digits write; `Malformed` if a byte is no digit.
#[tactic(auto, unfolding(crate::specs::Record::are_digits))]
fn number(tens: u8, ones: u8) -> Result<usize, Malformed>
    ensures { result ≡ cond (are_digits tens ones) (Ok (from_digits tens ones)) (Err malformed) }
{
    if !tens.is_ascii_digit() || !ones.is_ascii_digit() {
        return Err(Malformed);
    }
    Ok(text::BASE * usize::from(tens - b'0') + usize::from(ones - b'0'))
}

// What the first 8 bytes say; `Malformed` if they are not of the form of a record, or fewer.
pub fn decode(bytes: &[u8]) -> Result<Record, Malformed>
    ensures { result ≡ decoded (take record_bytes bytes.now) }
{
    let [letter, b' ', a, b, b' ', c, d, b'\n', ..] = *bytes else {
        return Err(Malformed);
    };
    let from = number(a, b)?;
    let to = number(c, d)?;
    match letter {
        b'L' => Ok(Record::Insert(from, to)),
        b'T' => Ok(Record::Delete(from, to)),
        _ => Err(Malformed),
    }
}
