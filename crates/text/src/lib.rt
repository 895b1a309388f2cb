// Text in a buffer of bytes: some bytes from a place on, and the two digits of a number below 100.
#![tactic(auto)]

ghost use Rattle.std.specs.Prelude.{◌≡◌, ◌+◌, ◌/◌, ◌%◌, ◌≤◌, ◌<◌, length};
ghost use Rattle.text.specs.Text.{Put};

// The base of the decimals.
pub const BASE: usize = 10;

// Internal: puts some bytes into the buffer from a place on, and answers the place after them. The place goes beside the buffer: a struct of
// both would hold the `&mut`, and each contract would have to say that it keeps its reference.
pub fn put(buffer: &mut [u8], at: usize, bytes: &[u8]) -> usize
    requires { at + length bytes.now ≤ length buffer.old }
    ensures { Put buffer.old at bytes.now buffer.new result }
{
    let end = at + bytes.len();
    buffer[at..end].copy_from_slice(bytes);
    end
}

// Internal: the first of the two digits of a number below 100. A digit fits a byte, so the cast, here and in the next function, loses
// nothing; `try_from` would give an error that can't come.
pub fn tens(x: usize) -> u8
    requires { x < 100 }
    ensures { result ≡ 48 + x / 10 }
{
    b'0' + (x / BASE) as u8
}

// Internal: the last decimal digit of a number.
pub fn ones(x: usize) -> u8
    ensures { result ≡ 48 + x % 10 }
{
    b'0' + (x % BASE) as u8
}
