// The question of a walk by a rank: its checks past that of the sheet, and the walk. From each vertex the edges are tried in ascending
// order, and the counts passed over are taken off.
ghost use Rattle.std.specs.Prelude.{◌≡◌, ◌<◌, MatchOption, []};
ghost use Rattle.answer.specs.Answers.{number_of};
ghost use Rattle.answer.specs.Table.{First};
ghost use Rattle.sheet_theory.specs.Lent.{lent};
ghost use Rattle.query_theory.specs.Unrank.{walk};
ghost use Rattle.query.specs.Internal.{Stepped, IsWalk, before_walk};

use arrayvec::ArrayVec;
use sheet::{Refusal, Sheet, View};
use word::Bits;

// Where a walk goes next, and what is left of the rank.
#[derive(Clone, Copy)]
struct Next {
    vertex: usize,
    left: u64,
}

// The step from vertex i of a walk to a vertex by the rank k, if an edge fits.
fn step(sheet: View, i: usize, to: usize, k: u64) -> Option<Next>
    requires { (i < sheet.n) × (to < sheet.n) }
    ensures { Stepped sheet.entry.n sheet.entry.words.now i to k result }
{
    let mut left = k;
    for b in Bits::of(sheet.row(i) & word::low_bits(sheet.n)) {
        let count = sheet.count(b, to);
        if left < count {
            return Some(Next { vertex: b, left });
        }
        left -= count;
    }
    None
}

// Where a walk begins and ends, and its rank: how many come before it.
#[derive(Clone, Copy)]
pub(crate) struct ByRank {
    pub(crate) from: usize,
    pub(crate) to: usize,
    pub(crate) k: u64,
}

impl ByRank {
    // Whether such a walk may be asked for, or why not: 3, 10, 11.
    pub(crate) fn check(self, sheet: View, bytes: usize) -> Result<(), Refusal>
        ensures { First (before_walk sheet.entry.n (lent sheet.entry.words.now) self.from self.to self.k bytes) (number_of result) }
    {
        sheet.check_vertices(self.from, self.to)?;
        if bytes < sheet.n {
            return Err(Refusal::Buffer);
        }
        if sheet.count(self.from, self.to) <= self.k {
            return Err(Refusal::NoSuchPath);
        }
        Ok(())
    }

    // The vertices of the walk, if it arrives with the rank at 0. They stand in the vector that is lent: one that is handed out is copied, and
    // `unrank` takes a third longer on a walk of one vertex.
    pub(crate) fn walk<'w>(
        self,
        sheet: View,
        path: &'w mut ArrayVec<u8, { Sheet::VERTICES }>,
    ) -> Option<&'w [u8]>
        requires { (self.from < sheet.n) × (self.to < sheet.n) }
        ensures { MatchOption result (walk sheet.entry.n sheet.entry.words.now self.from self.to self.k ≡ []) (λ l. IsWalk sheet.entry.n sheet.entry.words.now self.from self.to self.k l.now) }
    {
        path.clear();
        let mut at = self.from;
        let mut left = self.k;
        for _ in 0..sheet.n {
            // A vertex fits a byte, so the cast loses nothing; `try_from` would give an error that can't come.
            path.push(at as u8);
            if at == self.to {
                return (left == 0).then_some(path.as_slice());
            }
            let next = step(sheet, at, self.to, left)?;
            at = next.vertex;
            left = next.left;
        }
        None
    }
}
