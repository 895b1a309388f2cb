// What the calls are lent.
use crate::fault::Fault;
use arrayvec::ArrayVec;
use std::iter;

// The words of a sheet of 65 vertices, were there one: no case lends more.
pub const WORDS: usize = 65 + 65 * 65;

// One record more than the longest plan has: no case lends more bytes.
const BYTES: usize = plan::MOST_BYTES + 8;

// How many copies of a value are appended at once.
const RUN: usize = 256;

// What the calls are told and lent, and the words kept.
#[derive(Drop)]
pub struct Lent {
    // The number of vertices.
    pub vertices: usize,
    // The words of a sheet.
    pub words: ArrayVec<u64, WORDS>,
    // The bytes of a path or of a plan.
    pub bytes: ArrayVec<u8, BYTES>,
    // The value that the words were lent with.
    value: u64,
    // The words kept, and after them the value that they were lent with, up to the most words that can be lent.
    kept: [u64; WORDS],
}

// Replaces the items by so many copies of a value, if there is room for them. The value is given as `RUN` copies of it.
fn fill<T: Copy + Default + Drop, const MOST: usize>(
    items: &mut ArrayVec<T, MOST>,
    count: usize,
    copies: &[T],
) -> Result<(), Fault> {
    items.clear();
    for _ in 0..count / RUN {
        items.try_extend_from_slice(copies)?;
    }
    let rest = copies.get(..count % RUN).ok_or(Fault::NotACommand)?;
    items.try_extend_from_slice(rest)?;
    Ok(())
}

impl Lent {
    // Nothing lent, and words of value 0 kept.
    pub fn new() -> Lent {
        Lent {
            vertices: 0,
            words: ArrayVec::new(),
            bytes: ArrayVec::new(),
            value: 0,
            kept: [0; WORDS],
        }
    }

    // Lends so many words of this value.
    pub fn lend_words(&mut self, count: usize, value: u64) -> Result<(), Fault> {
        fill(&mut self.words, count, &[value; RUN])?;
        self.value = value;
        Ok(())
    }

    // Stores values in the lent words from a place on.
    pub fn put(&mut self, place: usize, values: &[usize]) -> Result<(), Fault> {
        let (_, words) = self
            .words
            .as_mut_slice()
            .split_at_mut_checked(place)
            .ok_or(Fault::NotACommand)?;
        if words.len() < values.len() {
            return Err(Fault::NotACommand);
        }
        // Numbers of a line are cast to words: from `usize` to `u64` there is no `From`.
        for (word, value) in words.iter_mut().zip(values) {
            *word = *value as u64;
        }
        Ok(())
    }

    // Lends so many bytes of this value.
    pub fn lend_bytes(&mut self, count: usize, value: u8) -> Result<(), Fault> {
        fill(&mut self.bytes, count, &[value; RUN])
    }

    // Lends the bytes of a text, with a line feed in place of each `/`.
    pub fn lend_plan(&mut self, text: &[u8]) -> Result<(), Fault> {
        self.bytes.clear();
        for byte in text {
            self.bytes
                .try_push(if *byte == b'/' { b'\n' } else { *byte })?;
        }
        Ok(())
    }

    // Keeps the lent words.
    pub fn keep(&mut self) {
        let after = iter::repeat(self.value);
        let words = self.words.as_slice().iter().copied().chain(after);
        for (kept, word) in self.kept.iter_mut().zip(words) {
            *kept = word;
        }
    }

    // Whether the lent words are those kept.
    pub fn are_kept(&self) -> bool {
        self.kept.starts_with(self.words.as_slice())
    }
}
