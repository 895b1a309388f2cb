// The rank of a path: the counts to its end that are passed over on it.
ghost use Rattle.std.specs.Prelude.{◌≡◌, ◌%◌, ◌^◌, ◌<◌, length};
ghost use Rattle.sheet_theory.specs.Layout.{count_at, edge_at};
ghost use Rattle.query_theory.specs.PassedOver.{passed};
ghost use Rattle.query_theory.specs.Rank.{path_rank};
ghost use Rattle.query.specs.Internal.{Vertices};

use sheet::View;
use word::Bits;

// The counts to vertex j passed over on the way from i to b, added up modulo 2^64.
fn pass_over(sheet: View, i: usize, b: usize, j: usize) -> u64
    requires { (i < sheet.n) × (b < sheet.n) × (j < sheet.n) }
    ensures { result ≡ passed (edge_at sheet.entry.words.now) (count_at sheet.entry.n sheet.entry.words.now) j i b % 2 ^ 64 }
{
    // By a shift: `low_bits` would ask besides whether b is 64, which takes three instructions a vertex.
    let lower = (1 << b) - 1;
    let mut sum = 0;
    for a in Bits::of(sheet.row(i) & lower) {
        sum = word::wrapping_add(sum, sheet.count(a, j));
    }
    sum
}

// The counts to the end of the path passed over on it, added up modulo 2^64.
pub(crate) fn path_rank(sheet: View, path: &[u8]) -> u64
    requires { Vertices sheet.n path.now }
    ensures { result ≡ path_rank sheet.entry.n sheet.entry.words.now path.now % 2 ^ 64 }
{
    let Some(last) = path.last() else {
        return 0;
    };
    let end = usize::from(*last);
    let mut sum = 0;

    for (here, next) in path.iter().zip(&path[1..]) {
        let passed = pass_over(sheet, usize::from(*here), usize::from(*next), end);
        sum = word::wrapping_add(sum, passed);
    }
    sum
}
