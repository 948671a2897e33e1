// Which pages a bin table names.
ghost use Rattle.std.specs.Prelude.{◌≡◌, ◌≢◌, ◌<◌, ℕ, IfOk, length, slice_index};
ghost use Rattle.fkp_pages.specs.Bin.{bin_count, page_number};
ghost use Rattle.page_copies.specs.Names.{names_page, named_flag};

use doc_bits::{Memory, get32};
use std::alloc::Global;

/// The bytes of a range in a bin table: its fc, and the number of its page.
const RANGE_LEN: usize = 8;

/// How many numbers of pages there are.
const PAGE_NUMBERS: u32 = 0x40_0000;

/// The number of ranges of a bin table.
fn range_count(bin: &[u8]) -> usize
    ensures { result ≡ bin_count bin.now }
{
    bin.len().saturating_sub(4) / RANGE_LEN
}

/// The number of the page of a range.
fn page_of(bin: &[u8], k: usize) -> u32
    requires { k < bin_count bin.now }
    ensures { result ≡ page_number bin.now k }
{
    get32(bin, 4 * (range_count(bin) + 1) + 4 * k) % PAGE_NUMBERS
}

/// Marks a page, where it is one of them.
fn set_mark(marks: &mut Vec<u8>, number: usize)
    ensures len { length marks.new.items ≡ length marks.old.items }
    ensures here { number < length marks.old.items → slice_index marks.new.items number ≡ 1 }
    ensures others { (other : ℕ) → other ≢ number
        → slice_index marks.new.items other ≡ slice_index marks.old.items other }
{
    if marks.len() <= number {
        return;
    }
    marks[number] = 1;
}

/// For each of so many pages 1 where the table names it, and else 0.
pub fn named_pages(alloc: Global, bin: &[u8], places: usize) -> Result<Vec<u8>, Memory>
    ensures len { IfOk result (λ marks. length marks.items ≡ places) }
    ensures marks { IfOk result (λ marks. (number : ℕ) → number < places
        → slice_index marks.items number ≡ named_flag (names_page bin.now number)) }
{
    let mut marks = Vec::with_capacity(alloc, places)?;
    marks.resize(places, 0)?;
    for k in 0..range_count(bin) {
        set_mark(&mut marks, page_of(bin, k) as usize);
    }
    Ok(marks)
}
