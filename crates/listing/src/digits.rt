// Decimals.
ghost use Rattle.std.specs.Prelude.{◌+◌, ◌≤◌, length};
ghost use Rattle.text.specs.Text.{Put};
ghost use Rattle.listing_theory.specs.Lines.{decimal};

// The digits of the greatest number of 64 bits.
const MOST_DIGITS: usize = 20;

// Puts a number, without leading zeros, into the buffer from a place on: the place after it. The place goes beside the buffer, as
// `text::put` says.
pub(crate) fn put(out: &mut [u8], at: usize, x: u64) -> usize
    requires { at + length (decimal x) ≤ length out.old }
    ensures { Put out.old at (decimal x) out.new result }
{
    let mut digits = [0u8; MOST_DIGITS];
    let count = io::decimal(x, &mut digits);
    text::put(out, at, &digits[..count])
}
