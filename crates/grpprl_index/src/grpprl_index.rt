// Where a list may be among those that were met. A wrong answer only costs time.

use doc_bits::{Memory, get32};
use std::alloc::Global;

/// So many rows are at least, where a list is kept.
const MIN_ROWS: usize = 8;

/// So many guesses are made for each row.
const GUESSES_A_ROW: usize = 8;

/// The sum of a list's bytes, and one more than the number of the list before it in its row, or 0.
#[derive(Clone, Copy)]
struct Link {
    sum: u32,
    before: u32,
}

/// Finds numbers of lists by the sums of their bytes, and by their places. It has as many rows as lists, up to twice.
#[derive(Drop)]
pub(crate) struct GrpprlIndex {
    /// By the number of a list.
    links: Vec<Link>,
    /// By a sum, one more than the number of the last list, or 0.
    rows: Vec<u32>,
    /// By a place, the number of the list that was found there last.
    guesses: Vec<u32>,
}

impl GrpprlIndex {
    /// No lists. It takes no memory.
    pub(crate) fn new(alloc: Global) -> GrpprlIndex {
        GrpprlIndex {
            links: Vec::new(alloc),
            rows: Vec::new(alloc),
            guesses: Vec::new(alloc),
        }
    }

    /// The number of the list that was found last at a place, or of another one.
    pub(crate) fn guess(&self, place: usize) -> usize {
        let slot = slot_of(spot_of(place), self.guesses.len());
        if slot < self.guesses.len() {
            self.guesses[slot] as usize
        } else {
            0
        }
    }

    /// Keeps the number of the list that was found at a place.
    pub(crate) fn keep_guess(&mut self, place: usize, number: usize) {
        let slot = slot_of(spot_of(place), self.guesses.len());
        if slot < self.guesses.len() {
            self.guesses[slot] = in_32_bits(number);
        }
    }

    /// One more than the number of the last list in the row of a sum, or 0.
    pub(crate) fn last_of(&self, sum: u32) -> usize {
        let slot = slot_of(row_of(sum), self.rows.len());
        if slot < self.rows.len() {
            self.rows[slot] as usize
        } else {
            0
        }
    }

    /// Whether the list of a number has a sum.
    pub(crate) fn has_sum(&self, number: usize, sum: u32) -> bool {
        number < self.links.len() && self.links[number].sum == sum
    }

    /// One more than the number of the list before another one in its row, or 0.
    pub(crate) fn before(&self, number: usize) -> usize {
        if number < self.links.len() {
            self.links[number].before as usize
        } else {
            0
        }
    }

    /// Adds the list of the next number.
    pub(crate) fn add(&mut self, number: usize, sum: u32) -> Result<(), Memory> {
        self.links.truncate(number);
        self.grow()?;
        self.links.push(Link { sum, before: 0 })?;
        self.relink(number);
        Ok(())
    }

    /// Makes twice the rows and guesses, where each row has a list.
    fn grow(&mut self) -> Result<(), Memory> {
        let count = self.links.len();
        if count < self.rows.len() {
            return Ok(());
        }
        let rows = count.wrapping_mul(2).max(MIN_ROWS);
        self.rows.clear();
        self.rows.resize(rows, 0)?;
        self.guesses.clear();
        self.guesses.resize(rows.wrapping_mul(GUESSES_A_ROW), 0)?;
        for number in 0..count {
            self.relink(number);
        }
        Ok(())
    }

    /// Puts a list at the head of the row of its sum.
    fn relink(&mut self, number: usize) {
        if self.links.len() <= number {
            return;
        }
        let sum = self.links[number].sum;
        let slot = slot_of(row_of(sum), self.rows.len());
        if slot < self.rows.len() {
            let before = self.rows[slot];
            self.links[number] = Link { sum, before };
            self.rows[slot] = in_32_bits(number.wrapping_add(1));
        }
    }
}

/// A number of a list in 32 bits. A list of a greater number is not found again.
fn in_32_bits(number: usize) -> u32 {
    number.min(u32::MAX as usize) as u32
}

/// Places of one page have spots of their own, and so have equal places of neighbouring pages.
fn spot_of(place: usize) -> usize {
    place / 2 + place / 512
}

/// Spreads sums over rows.
fn row_of(sum: u32) -> usize {
    (sum.wrapping_mul(0x9E37_79B1) >> 8) as usize
}

/// The place of a number in a table of so many entries, a power of two.
fn slot_of(number: usize, len: usize) -> usize {
    number & len.wrapping_sub(1)
}

/// A number by which a list is looked for. Four bytes are taken at once.
pub(crate) fn sum_of(list: &[u8]) -> u32 {
    let words = list.len() / 4;
    let mut sum = 0u32;
    for word in 0..words {
        sum = next_sum(sum, get32(list, 4 * word));
    }
    for byte in &list[4 * words..] {
        sum = next_sum(sum, *byte as u32);
    }
    sum
}

/// A sum with a number more.
fn next_sum(sum: u32, number: u32) -> u32 {
    sum.wrapping_mul(0x0100_0193).wrapping_add(number)
}
