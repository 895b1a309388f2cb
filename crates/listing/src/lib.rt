// The listing of a plan, as text in a buffer that always suffices, for all bytes; and a buffer for the input.
#![tactic(auto)]

ghost use Rattle.std.specs.Prelude.{◌≡◌, length, replicate};
ghost use Rattle.text.specs.Text.{written};
ghost use Rattle.listing_theory.specs.Listing.{listing, input_bytes};

use sheet::Sheet;

mod digits;
mod lines;

// The sizes of the buffers around a listing.
#[derive(Drop)]
pub struct Listing {}

impl Listing {
    // The most bytes that a line has.
    pub const LINE: usize = 27;
    // The bytes of a buffer in which every listing fits: the first line and one for each of 64 × 64 pairs.
    pub const BYTES: usize = Listing::LINE + Sheet::VERTICES * Sheet::VERTICES * Listing::LINE;
    // What a program has to read of its input: one byte more than the longest plan, since a longer input is refused by its
    // length, whatever follows.
    pub const INPUT: usize = plan::MOST_BYTES + 1;
}

// A buffer for what a program has to read of its input.
pub fn input_buffer() -> [u8; Listing::INPUT]
    ensures { result ≡ replicate input_bytes 0 }
{
    [0; Listing::INPUT]
}

// The listing of a plan, read into the empty sheet of 64 vertices, in the first places of `out`: how many bytes it has.
pub fn list(plan: &[u8], out: &mut [u8; Listing::BYTES]) -> usize
    ensures count { result ≡ length (listing plan.now) }
    ensures bytes { out.new ≡ written (listing plan.now) out.old }
{
    let mut sheet = Sheet::new();
    let outcome = plan::apply_plan(Sheet::VERTICES, &mut sheet.words, plan);
    lines::write(outcome, &sheet, out)
}
