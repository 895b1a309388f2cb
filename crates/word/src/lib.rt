// The bits of a 64-bit word by shifts and masks, and arithmetic modulo 2 ^ 64. Assumes nothing.
#![tactic(auto)]

ghost use Rattle.std.specs.Prelude.{◌≡◌, ℕ, ◌+◌, ◌-◌, ◌*◌, ◌%◌, ◌^◌, ◌<◌, ◌≤◌, nat_lt};
ghost use Rattle.word.specs.Bit.{word_bits, has_bit, with_bit, without_bit, bit_count, Lowest, Highest, LowestCleared};
ghost use Rattle.word.specs.Bits.{GivesLowest};
ghost use Rattle.word.specs.Combine.{Wraps, plus_wraps, minus_wraps};
ghost use Rattle.word.specs.Wrap.{plus, minus};
ghost use Rattle.std.specs.Iterator.{at_most};

// The bits of a word.
const BITS: usize = 64;

// Internal: whether bit j of row is set. The place is a plain number, here and below: one of a type for numbers below 64 would be wrapped
// and unwrapped at each call.
pub fn test_bit(row: u64, j: usize) -> bool
    requires { j < word_bits }
    ensures { result ≡ has_bit row j }
{
    (row >> j) & 1 == 1
}

// Internal: row with bit j set.
pub fn set_bit(row: u64, j: usize) -> u64
    requires { j < word_bits }
    ensures { result ≡ with_bit row j }
{
    row | (1 << j)
}

// Internal: row with bit j cleared.
pub fn clear_bit(row: u64, j: usize) -> u64
    requires { j < word_bits }
    ensures { result ≡ without_bit row j }
{
    row & !(1 << j)
}

// Internal: how many bits of row are set.
pub fn count_bits(row: u64) -> u64
    ensures { result ≡ bit_count row }
{
    u64::from(row.count_ones())
}

// Internal: whether row has no bit at n or above. A word has no bit at 64 or above.
pub fn within(row: u64, n: usize) -> bool
    ensures { result ≡ nat_lt row (2 ^ n) }
{
    BITS <= n || row >> n == 0
}

// Internal: the word whose bits below n are set, and no others.
pub fn low_bits(n: usize) -> u64
    requires { n ≤ word_bits }
    ensures { result ≡ 2 ^ n - 1 }
{
    if n == BITS {
        return u64::MAX;
    }
    (1 << n) - 1
}

// Internal: the place of the lowest bit of mask that is set. The mask is not 0. The place is cast, here and in the next function: from
// `u32` to `usize` there is no `From`. The mask is a plain word: one of a type for words that are not 0 would be wrapped and unwrapped at
// each call.
pub fn lowest_bit(mask: u64) -> usize
    requires { 0 < mask }
    ensures { Lowest mask result }
{
    mask.trailing_zeros() as usize
}

// Internal: the place of the highest bit of mask that is set. The mask is not 0.
pub fn highest_bit(mask: u64) -> usize
    requires { 0 < mask }
    ensures { Highest mask result }
{
    (u64::BITS - 1 - mask.leading_zeros()) as usize
}

// Internal: mask with its lowest set bit cleared. The mask is not 0.
pub fn clear_lowest(mask: u64) -> u64
    requires { 0 < mask }
    ensures { LowestCleared mask result }
{
    mask & (mask - 1)
}

// Internal: the places of the bits that are set in a word, from the lowest up.
#[derive(Clone, Copy)]
pub struct Bits {
    pub rest: u64,
}

impl Iterator for Bits {
    type Item = usize;

    ghost next_gives = { GivesLowest };

    ghost remaining = { λ s. at_most s.rest };

    fn next(&mut self) -> Option<usize> {
        if self.rest == 0 {
            return None;
        }
        let place = lowest_bit(self.rest);
        self.rest = clear_lowest(self.rest);
        Some(place)
    }
}

impl Bits {
    // Internal: the places of the bits that are set in the mask.
    pub fn of(mask: u64) -> Bits
        ensures { result.rest ≡ mask }
    {
        Bits { rest: mask }
    }
}

// Internal: how a word changes another, modulo 2 ^ 64, so that several at once come to their sum.
pub trait Combine {
    ghost op: { ℕ → ℕ → ℕ };

    ghost wraps: { Wraps op };

    fn combine(a: u64, b: u64) -> u64
        ensures { result ≡ op a b };
}

// Internal: the one is added to the other.
pub struct Plus {}

impl Combine for Plus {
    ghost op = { plus };

    ghost wraps = { plus_wraps };

    fn combine(a: u64, b: u64) -> u64 {
        wrapping_add(a, b)
    }
}

// Internal: the one is taken off the other.
pub struct Minus {}

impl Combine for Minus {
    ghost op = { minus };

    ghost wraps = { minus_wraps };

    fn combine(a: u64, b: u64) -> u64 {
        wrapping_sub(a, b)
    }
}

// Internal: a + b, modulo 2 ^ 64. Document 01 names the forms of this function and of the two below it: the sum and the difference are
// supplied by the library, and the product is worked out here.
pub fn wrapping_add(a: u64, b: u64) -> u64
    ensures { result ≡ (a + b) % 2 ^ 64 }
{
    a.wrapping_add(b)
}

// Internal: a less b, modulo 2 ^ 64.
pub fn wrapping_sub(a: u64, b: u64) -> u64
    ensures { result ≡ minus a b }
{
    a.wrapping_sub(b)
}

// Internal: a * b, modulo 2 ^ 64, by halves of 32 bits. The product of the high halves is a multiple of 2 ^ 64.
pub fn wrapping_mul(a: u64, b: u64) -> u64
    ensures { result ≡ a * b % 2 ^ 64 }
{
    let al = a & 0xffff_ffff;
    let ah = a >> 32;
    let bl = b & 0xffff_ffff;
    let bh = b >> 32;
    let cross = wrapping_add(ah * bl, bh * al);
    wrapping_add(cross << 32, al * bl)
}
