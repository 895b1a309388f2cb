// The counts by blocks of 16 columns, written or tested, on sheets of 16 vertices or more: the counts from a vertex to a block's columns
// are added up, or taken off the stored ones, at once, from those successors alone that lead to one of the columns. The columns from c on
// are the 16 of the block that begins there.
#![tactic(auto)]

ghost use Rattle.std.specs.Prelude.{◌≡◌, ℕ, ◌+◌, ◌^◌, ◌<◌, ◌≤◌, length, bit_and};
ghost use Rattle.answer.specs.Table.{Reflects};
ghost use Rattle.sheet_theory.specs.Layout.{most_vertices, Shape};
ghost use Rattle.sheet_theory.specs.Internal.{CountsHold};
ghost use Rattle.order.specs.Internal.{Ordered};
ghost use Rattle.vertex_counts.specs.Internal.{SameWords, counted, ColumnsFilled};
ghost use Rattle.sheet.specs.Internal.{with_counts};
ghost use Rattle.count_blocks.specs.Internal.{columns, UnitWords, PlaceOf, OwnBy, count_by_mask, BlockCounted, PartHolds};
ghost use Rattle.count_blocks.specs.Internal.{HasColumns, Led, BlockAt, BlockHolds};

use sheet::View;
use word::{Combine, Minus, Plus};

// Internal: the columns of a block, whose counts are worked out together: so many that their sums fit in registers.
pub const COLUMNS: usize = 16;

// The length of `unit_words`: its windows of COLUMNS words have the 1 at any of their places.
const UNIT_WORDS: usize = 2 * COLUMNS;

// An array whose middle word is 1 and whose other words are 0. The path from i to itself is added to the sums of the block from c on as the
// window of COLUMNS words that begins at COLUMNS less the place of i. Writing to that place would spill the sums to memory.
#[tactic(auto, using(crate::proofs::BlockLaws::unit_made))]
fn unit_words() -> [u64; UNIT_WORDS]
    ensures { UnitWords result }
{
    let mut unit = [0u64; UNIT_WORDS];
    unit[COLUMNS] = 1;
    unit
}

// The columns of a block, those from c on, with the words of `unit_words`.
#[derive(Clone, Copy)]
struct Columns<'b> {
    c: usize,
    unit: &'b [u64],
    ghost made: { UnitWords unit.now },
}

// A block of a sheet that is lent to be read: the counts to its columns.
#[derive(Clone, Copy)]
struct Block<'a, 'b> {
    sheet: View<'a>,
    to: Columns<'b>,
    ghost within: { to.c + columns ≤ sheet.n },
}

impl<'a, 'b> Block<'a, 'b> {
    // The place of i among the columns, if it is one of them. Where i is before them the difference is beyond every place: one test tells.
    fn place_of(self, i: usize) -> Option<usize>
        requires { i < most_vertices }
        ensures { PlaceOf i self.entry.to.c result }
    {
        let place = i.wrapping_sub(self.to.c);
        if place < COLUMNS { Some(place) } else { None }
    }

    // The path from i to itself, combined with the counts from i to the columns: added to them, or taken off.
    fn combine_own<C: Combine>(self, i: usize, t: &mut [u64; COLUMNS])
        requires { i < most_vertices }
        ensures { OwnBy C.op i self.entry.to.c t.old t.new }
    {
        if let Some(place) = self.place_of(i) {
            let from = COLUMNS - place;
            sheet::words::combine_words::<C>(&self.to.unit[from..from + COLUMNS], t);
        }
    }

    // The counts from i to the columns that the recurrence gives, if the edges from i lead to the vertices of the mask. A vertex and its mask
    // are what a turn of a walk has: a struct of the two would be made in each turn and taken apart here.
    fn counts(self, i: usize, mask: u64) -> [u64; COLUMNS]
        requires { (i < self.sheet.n) × (mask < 2 ^ self.sheet.n) }
        ensures { BlockCounted self.entry.sheet.n self.entry.sheet.words.now i self.entry.to.c mask result }
    {
        let mut t = [0u64; COLUMNS];
        self.sheet
            .combine_counts::<Plus>(self.to.c, COLUMNS, mask, &mut t);
        self.combine_own::<Plus>(i, &mut t);
        t
    }

    // Whether the counts from i to the columns are those that the recurrence gives, if the edges from i lead to the vertices of the mask:
    // whether nothing is left of them once these are taken off.
    fn part_holds(self, i: usize, mask: u64) -> bool
        requires { (i < self.sheet.n) × (mask < 2 ^ self.sheet.n) }
        ensures { Reflects result (PartHolds self.entry.sheet.n self.entry.sheet.words.now i self.entry.to.c mask) }
    {
        let mut t = block_of(&self.sheet.counts_from(i)[self.to.c..self.to.c + COLUMNS]);
        self.combine_own::<Minus>(i, &mut t);
        self.sheet
            .combine_counts::<Minus>(self.to.c, COLUMNS, mask, &mut t);
        vertex_counts::same_words(&t, &[0u64; COLUMNS])
    }

    // Whether the counts from every vertex to the columns satisfy the recurrence.
    #[tactic(auto, using(crate::proofs::BlockLaws::compared_laws))]
    fn holds(self, order: &[usize]) -> bool
        requires { Ordered self.sheet.n self.sheet.words.now order.now }
        ensures { Reflects result (BlockHolds self.entry.sheet.n self.entry.sheet.words.now self.entry.to.c) }
    {
        let mut leading = block_mask(self.to.c);
        for &i in order {
            let mask = leading_successors(i, self.sheet.row(i), &mut leading);
            if !self.part_holds(i, mask) {
                return false;
            }
        }
        true
    }
}

// The words of a block, copied. They are added to 0, which keeps them in registers: `copy_from_slice` goes through memory, and by it
// `validate` takes up to a third longer.
fn block_of(words: &[u64]) -> [u64; COLUMNS]
    requires { length words.now ≡ columns }
    ensures { SameWords columns result words.now }
{
    let mut t = [0u64; COLUMNS];
    sheet::words::combine_words::<Plus>(words, &mut t);
    t
}

// The columns from c on, as a mask.
#[tactic(auto, using(crate::proofs::BlockLaws::block_columns))]
fn block_mask(c: usize) -> u64
    requires { c + columns ≤ most_vertices }
    ensures { HasColumns c result }
{
    word::low_bits(c + COLUMNS) & !word::low_bits(c)
}

// Those successors of i, in its row, that are known to lead to a column of the block: the vertices of `leading`. If there is one, i is
// known to lead there too.
#[tactic(auto, using(crate::proofs::BlockLaws::led_set, crate::proofs::BlockLaws::led_same))]
fn leading_successors(i: usize, row: u64, leading: &mut u64) -> u64
    requires { i < most_vertices }
    ensures mask { result ≡ bit_and row leading.old }
    ensures within { result ≤ row }
    ensures led { Led i leading.old result leading.new }
{
    let mask = row & *leading;
    if mask != 0 {
        *leading = word::set_bit(*leading, i);
    }
    mask
}

// Where the block of columns begins that holds column c and those after it: at c, or earlier where fewer than COLUMNS are left.
// A sheet of COLUMNS vertices or more has no type of its own: it would be a `View`, and where the sheet is written there is none.
fn block_at(n: usize, c: usize) -> usize
    requires { (columns ≤ n) × (n ≤ most_vertices) × (c < n) }
    ensures { BlockAt n c result }
{
    c.min(n - COLUMNS)
}

// The counts from i to the columns, written. What writes a sheet takes n and the words: a struct that held the `&mut` would have
// to say in each contract that it keeps both.
fn fill_part(n: usize, sheet: &mut [u64], to: Columns, i: usize, mask: u64)
    requires { (Shape n sheet.old) × (to.c + columns ≤ n) × (i < n) × (mask < 2 ^ n) }
    ensures { sheet.new ≡ with_counts n sheet.old i to.entry.c columns (λ (j : ℕ). count_by_mask n sheet.old i j mask) }
{
    let lent = View { n, words: sheet };
    let block = Block { sheet: lent, to };
    let t = block.counts(i, mask);
    sheet::words::copy_words(&t, sheet, sheet::layout::counts_start(n, i) + to.c);
}

// The counts from every vertex to the columns, written in the order given. A struct can't hold the order with the `&mut` either: it is an
// order of the sheet as it was lent. `Block::holds` walks as this function does, and `blocks_hold` as `fill_blocks`. One walk for both
// would borrow the rows of the sheet while this writes its counts; with rows and counts as two slices, what reads a sheet, `View`, would
// be there twice.
fn fill_block(n: usize, sheet: &mut [u64], to: Columns, order: &[usize])
    requires { (Shape n sheet.old) × (to.c + columns ≤ n) × (Ordered n sheet.old order.now) }
    ensures { ColumnsFilled n sheet.old to.entry.c columns sheet.new }
{
    let mut leading = block_mask(to.c);
    for &i in order {
        let mask = leading_successors(i, sheet[i], &mut leading);
        fill_part(n, sheet, to, i, mask);
    }
}

// Internal: the counts, in the order given, block by block.
pub fn fill_blocks(n: usize, sheet: &mut [u64], order: &[usize])
    requires { (Shape n sheet.old) × (Ordered n sheet.old order.now) × (columns ≤ n) }
    ensures { sheet.new ≡ counted n sheet.old }
{
    let unit = unit_words();
    for c in (0..n).step_by(COLUMNS) {
        let to = Columns {
            c: block_at(n, c),
            unit: &unit,
        };
        fill_block(n, sheet, to, order);
    }
}

// Internal: whether all counts satisfy the recurrence, block by block.
pub fn blocks_hold(sheet: View, order: &[usize]) -> bool
    requires { (Ordered sheet.n sheet.words.now order.now) × (columns ≤ sheet.n) }
    ensures { Reflects result ((i : ℕ) → i < sheet.entry.n → CountsHold sheet.entry.n sheet.entry.words.now i) }
{
    let unit = unit_words();
    for c in (0..sheet.n).step_by(COLUMNS) {
        let to = Columns {
            c: block_at(sheet.n, c),
            unit: &unit,
        };
        let block = Block { sheet, to };
        if !block.holds(order) {
            return false;
        }
    }
    true
}
