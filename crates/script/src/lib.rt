// Standard input and the decimals in it, for the programs.
#![tactic(auto)]

ghost use Rattle.std.specs.Prelude.{◌≡◌, ◌↔◌, ◌<◌, ◌≤◌, ◌^◌, IfOk, IfSome, IsSome, length, take};
ghost use Rattle.std.specs.Io.KnownBytes.{Consumes, IsAtEnd};
ghost use Rattle.std.specs.Str.Parse.{digits_value};
ghost use Rattle.script.specs.Buffer.{buffer_bytes};
ghost use Rattle.script.specs.Decimal.{IsDecimal};

use std::io::Read;
use std::{io, str};

// The bytes of a buffer for the input of a program, which has to be longer than the input.
pub const INPUT: usize = 65536;

// Internal: puts the bytes that a reader gives at the start of a buffer, until the reader ends or the buffer is full: how many there are.
pub fn fill<R: Read>(reader: &mut R, buffer: &mut [u8]) -> io::Result<usize>
    ensures bound { IfOk result (λ count. count ≤ length buffer.new) }
    ensures bytes { IfOk result (λ count. Consumes (R.remaining reader.old) (R.remaining reader.new) (take count buffer.new)) }
    ensures end { IfOk result (λ count. count < length buffer.new → IsAtEnd (R.remaining reader.new)) }
{
    let mut count = 0;

    // A turn reads as many bytes as the reader has, so no range counts the turns.
    while count < buffer.len() {
        let more = reader.read(&mut buffer[count..])?;
        if more == 0 {
            break;
        }
        count += more;
    }
    Ok(count)
}

// Internal: the bytes of standard input, at the start of a buffer; none if they fill it, since there may be more.
pub fn input<'a>(rt: &impl Input, buffer: &'a mut [u8]) -> io::Result<Option<&'a [u8]>>
    ensures { IfOk result (λ taken. IfSome taken (λ bytes. length bytes.now < length buffer.old)) }
{
    let count = fill(&mut rt.reader(), buffer)?;
    if count < buffer.len() {
        Ok(Some(&buffer[..count]))
    } else {
        Ok(None)
    }
}

// Internal: hands the bytes of standard input to a closure; or, if they fill a buffer of `INPUT` bytes, prints that they are too many.
pub fn with_input<R: Input + Print, F: FnOnce(&[u8]) -> io::Result<()>>(
    rt: &R,
    take: F,
) -> io::Result<()>
    requires { (text : _) → length text.now < buffer_bytes → F.pre take text }
{
    let mut buffer = [0; INPUT];
    match input(rt, &mut buffer)? {
        Some(text) => take(text),
        None => println!(rt; "the input is too long"),
    }
}

// Internal: the decimal that a word writes: one or more digits and nothing else, of a value that 64 bits hold.
pub fn decimal(word: &[u8]) -> Option<usize>
    ensures written { IsSome result ↔ IsDecimal word.now }
    ensures value { IfSome result (λ x. x ≡ digits_value 10 word.now) }
{
    if !word.iter().all(|byte| byte.is_ascii_digit()) {
        return None;
    }
    str::from_utf8(word).ok()?.parse().ok()
}
