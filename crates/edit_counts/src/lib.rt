// The counts after an edit: those from a vertex by themselves and by one array of words, or two where there are predecessors, worked out
// before the first word is written.
// With x the count from i to v, y that from v to j, and F and T the sums over the predecessors and the successors, an insertion adds
// x T + F (T + y) to the count from i to j, and a deletion (F - x) T + F (-y).
#![tactic(auto)]

ghost use Rattle.std.specs.Prelude.{◌≡◌, ◌≤◌, ◌<◌, ◌^◌, length};
ghost use Rattle.sheet_theory.specs.Layout.{most_vertices, Shape};
ghost use Rattle.edit_counts.specs.Internal.{to_factor, from_factor, Factors, sum_at, with_multiple, counts_from_edited, counts_by, counts_edited};

pub mod edges;

pub use edges::EdgesAt;
use sheet::{Sheet, View};
use word::{Bits, Plus};

// What T is multiplied by: x for an insertion, f less x for a deletion, modulo 2^64.
fn to_factor(inserts: bool, x: u64, f: u64) -> u64
    ensures { result ≡ to_factor inserts x f }
{
    if inserts {
        return x;
    }
    word::wrapping_sub(f, x)
}

// What F is multiplied by: t plus y for an insertion, 0 less y for a deletion, modulo 2^64.
fn from_factor(inserts: bool, t: u64, y: u64) -> u64
    ensures { result ≡ from_factor inserts t y }
{
    if inserts {
        return word::wrapping_add(t, y);
    }
    word::wrapping_sub(0, y)
}

// The sum of the words at the places of the mask, modulo 2^64.
fn sum_at(words: &[u64], mask: u64) -> u64
    requires { mask < 2 ^ length words.now }
    ensures { result ≡ sum_at (length words.now) words.now mask }
{
    let mut sum = 0;
    for k in Bits::of(mask) {
        sum = word::wrapping_add(sum, words[k]);
    }
    sum
}

// x times t, added to the words at the same places, modulo 2^64. Nothing is written where x is 0.
fn add_multiple(words: &mut [u64], x: u64, t: &[u64; Sheet::VERTICES])
    requires { length words.old ≤ most_vertices }
    ensures { words.new ≡ with_multiple (length words.old) words.old x t.now }
{
    if x == 0 {
        return;
    }
    // By the place and not by `zip(t)`: what is written through `zip` is not known after the loop, so the proof does not close.
    for (j, word) in words.iter_mut().enumerate() {
        *word = word::wrapping_add(*word, word::wrapping_mul(x, t[j]));
    }
}

// What an edit adds multiples of to the counts from a vertex: at each j below n, a word of t and a word of u for the count to j.
#[derive(Drop)]
struct Sums {
    // The sums T over the successors.
    t: [u64; Sheet::VERTICES],
    // At j, what F is multiplied by in the count to j. Without predecessors it is not looked at.
    u: [u64; Sheet::VERTICES],
}

impl EdgesAt {
    // The counts from one vertex.
    fn edit_counts_from(self, counts: &mut [u64], sums: &Sums)
        requires { (self.n ≤ most_vertices) × (length counts.old ≡ self.n) }
        ensures { counts.new ≡ counts_from_edited self.inserts self.n counts.old self.v self.predecessors sums.now.t sums.now.u }
    {
        // f comes before x: the other way about, an edit by masks takes some hundredths longer.
        let f = sum_at(counts, self.predecessors);
        let x = counts[self.v];
        add_multiple(counts, to_factor(self.inserts, x, f), &sums.t);
        add_multiple(counts, f, &sums.u);
    }

    // The first n words of u: at each j, what F is multiplied by in the counts to j. Nothing is written without predecessors, where each F
    // is 0. The sums are lent, since an array that is handed out is copied.
    fn from_factors(self, sheet: View, sums: &mut Sums)
        requires { sheet.n ≡ self.n }
        ensures t { sums.new.t ≡ sums.old.t }
        ensures u { Factors self.inserts sheet.entry.n sheet.entry.words.now self.v self.predecessors sums.new.t sums.new.u }
    {
        if self.predecessors == 0 {
            return;
        }
        // By the place, for the reason at `add_multiple`.
        for (j, y) in sheet.counts_from(self.v).iter().enumerate() {
            sums.u[j] = from_factor(self.inserts, sums.t[j], *y);
        }
    }

    // Every count.
    // What writes a sheet takes the edges, which have n, and the words, here and below: the reason stands at `View`.
    fn edit_all(self, sheet: &mut [u64], sums: &Sums)
        requires shape { Shape self.n sheet.old }
        requires factors { Factors self.inserts self.n sheet.old self.v self.predecessors sums.now.t sums.now.u }
        ensures { sheet.new ≡ counts_by self.inserts self.n sheet.old self.v self.predecessors sums.now.t }
    {
        for i in 0..self.n {
            let from = sheet::layout::counts_start(self.n, i);
            self.edit_counts_from(&mut sheet[from..from + self.n], sums);
        }
    }

    // Internal: every count as the edit leaves it.
    pub fn edit_counts(self, sheet: &mut [u64])
        requires { Shape self.n sheet.old }
        ensures { sheet.new ≡ counts_edited self.inserts self.n sheet.old self.v self.predecessors self.successors }
    {
        let lent = View {
            n: self.n,
            words: sheet,
        };
        // The sums T are added up where they stand: handed out by a function of their own, they are copied, and an edge takes a tenth longer.
        let mut sums = Sums {
            t: [0; Sheet::VERTICES],
            u: [0; Sheet::VERTICES],
        };
        lent.combine_counts::<Plus>(0, self.n, self.successors, &mut sums.t);
        self.from_factors(lent, &mut sums);
        self.edit_all(sheet, &sums);
    }
}
