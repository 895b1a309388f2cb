// Words copied, and words combined with others.
ghost use Rattle.std.specs.Prelude.{◌≡◌, ℕ, ◌+◌, ◌≤◌, length, get_or};
ghost use Rattle.sheet.specs.Fill.{over};
ghost use Rattle.sheet.specs.Internal.{combined};

use word::Combine;

// Internal: the words of `from`, written to `to` from base on.
pub fn copy_words(from: &[u64], to: &mut [u64], base: usize)
    requires { base + length from.now ≤ length to.old }
    ensures { to.new ≡ over to.old base (λ (j : ℕ). get_or from.now j 0) (length from.now) }
{
    to[base..base + from.len()].copy_from_slice(from);
}

// Internal: each of some words combined with the word of t at its place: added to it, or taken off it, modulo 2^64.
#[tactic(auto, using(crate::proofs::FillLaws::puts_none, crate::proofs::WordsLaws::combined_more))]
pub fn combine_words<C: Combine>(words: &[u64], t: &mut [u64])
    requires { length words.now ≤ length t.old }
    ensures { t.new ≡ combined C.op (length words.now) words.now t.old }
{
    // By the place and not by `t.iter_mut().zip(words)`: what is written through `zip` is not known after the loop, so the proof does not
    // close.
    for (j, x) in words.iter().enumerate() {
        t[j] = C::combine(t[j], *x);
    }
}
