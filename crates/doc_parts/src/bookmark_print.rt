// [MS-DOC] SttbfBkmk, PlcfBkf and PlcfBkl, as they are printed. No bookmarks are no bytes.
ghost use Rattle.std.specs.Prelude.{◌≡◌, ℕ, ◌+◌, ◌<◌, ◌≤◌, ◌^◌, ◌++◌, ◌==◌, nat_lt, List, [], length, map, All, IfOk};
ghost use Rattle.std.specs.Prelude.{OnOk, slice_index, slice_set};
ghost use Rattle.std.specs.List.{count_by};
ghost use Rattle.std.specs.List.Sorted.{IsSorted};
ghost use Rattle.std.specs.Ordering.{nat_cmp};
ghost use Rattle.document_bookmarks.specs.Order.{in_order};
ghost use Rattle.doc_parts.specs.PrintedBookmarks.{bookmark_name_bytes, printed_names, bookmark_ends, end_place};
ghost use Rattle.doc_parts.specs.PrintedBookmarks.{starts_of};
ghost use Rattle.doc_parts.specs.PrintedBookmarks.{start_form, printed_starts, printed_ends};

use crate::bookmark_parts::WIDE;
use crate::tables::{TableEntry, print_table};
use doc_bits::{Bytes, Memory, get16, put16};
use document_bookmarks::Bookmarks;
use std::alloc::Global;

/// A start with what is beside it: the place of the end among the ends, and the flags.
#[derive(Clone, Copy)]
pub struct Start {
    pub cp: u32,
    pub index: u16,
    pub flags: u16,
}

impl TableEntry for Start {
    ghost form = { start_form };

    ghost SIZE = { 4 };

    const SIZE: usize = 4;

    fn read(cp: u32, bytes: &[u8]) -> Option<Start> {
        Some(Start {
            cp,
            index: get16(bytes, 0),
            flags: get16(bytes, 2),
        })
    }

    fn cp(&self) -> u32 {
        self.cp
    }

    fn print(&self, bytes: &mut Bytes) -> Result<(), Memory> {
        let mut entry = [0u8; 4];
        put16(&mut entry, 0, self.index);
        put16(&mut entry, 2, self.flags);
        bytes.push_all(&entry)
    }

    ghost use Rattle.doc_parts.specs.EntryLaws.{start-sized, start-keeps_cp};

    ghost sized = { start-sized };

    ghost keeps_cp = { start-keeps_cp };
}

/// Writes SttbfBkmk.
pub fn print_names(alloc: Global, list: &Bookmarks) -> Result<Bytes, Memory>
    requires few { length list.now ≤ 16000 }
    requires short { All (λ bookmark. length bookmark.name ≤ 255) list.now }
    ensures { IfOk result (λ bytes. bytes ≡ printed_names list.now) }
{
    let mut bytes = Bytes::new(alloc);
    let count = list.len();
    if count == 0 {
        return Ok(bytes);
    }
    bytes.push16(WIDE)?;
    bytes.push16(count as u16)?;
    bytes.push16(0)?;
    for i in 0..count {
        print_name(&mut bytes, list.get(i).name.as_slice())?;
    }
    Ok(bytes)
}

/// Appends a name: its count, and its units.
fn print_name(bytes: &mut Bytes, name: &[u16]) -> Result<(), Memory>
    requires { length name.now < 2 ^ 16 }
    ensures ok { OnOk result (bytes.new ≡ bytes.old ++ bookmark_name_bytes name.now) }
{
    bytes.push16(name.len() as u16)?;
    for unit in name {
        bytes.push16(*unit)?;
    }
    Ok(())
}

/// Writes PlcfBkf with the last CP `end`.
pub fn print_starts(alloc: Global, list: &Bookmarks, end: u32) -> Result<Bytes, Memory>
    requires few { length list.now ≤ 16000 }
    ensures { IfOk result (λ bytes. bytes ≡ printed_starts list.now end) }
{
    let ends = sorted_ends(alloc, list)?;
    let starts = numbered_starts(alloc, list, ends.as_slice())?;
    print_table(alloc, starts.as_slice(), end)
}

/// Writes PlcfBkl with the last CP `end`.
pub fn print_ends(alloc: Global, list: &Bookmarks, end: u32) -> Result<Bytes, Memory>
    ensures { IfOk result (λ bytes. bytes ≡ printed_ends list.now end) }
{
    let ends = sorted_ends(alloc, list)?;
    print_table(alloc, ends.as_slice(), end)
}

/// The ends in ascending order.
fn sorted_ends(alloc: Global, list: &Bookmarks) -> Result<Vec<u32>, Memory>
    ensures { IfOk result (λ ends. ends.items ≡ bookmark_ends list.now) }
{
    let mut ends = ends_in_list(alloc, list)?;
    sort_numbers(&mut ends);
    Ok(ends)
}

/// The ends in the order of the list.
fn ends_in_list(alloc: Global, list: &Bookmarks) -> Result<Vec<u32>, Memory>
    ensures { IfOk result (λ ends. ends.items ≡ map (λ bookmark. bookmark.to) list.now) }
{
    let mut ends = Vec::with_capacity(alloc, list.len())?;
    for i in 0..list.len() {
        ends.push(list.get(i).to)?;
    }
    Ok(ends)
}

/// Puts numbers in ascending order. It takes no memory.
fn sort_numbers(numbers: &mut Vec<u32>)
    ensures { numbers.new.items ≡ in_order nat_cmp numbers.old.items }
{
    numbers.sort_unstable();
}

/// The starts with the places of their ends.
fn numbered_starts(alloc: Global, list: &Bookmarks, ends: &[u32]) -> Result<Vec<Start>, Memory>
    requires few { length list.now ≤ 16000 }
    requires ends { ends.now ≡ bookmark_ends list.now }
    ensures { IfOk result (λ starts. starts.items ≡ starts_of list.now [] list.now) }
{
    let mut passed = vec![in alloc; 0u16; list.len()]?;
    let mut starts = Vec::with_capacity(alloc, list.len())?;
    for i in 0..list.len() {
        let bookmark = list.get(i);
        let first = lesser_count(ends, bookmark.to);
        let index = next_place(&mut passed, first);
        starts.push(Start {
            cp: bookmark.from,
            index,
            flags: bookmark.flags,
        })?;
    }
    Ok(starts)
}

/// How many ends are less than one. They are halved until it is found.
fn lesser_count(ends: &[u32], to: u32) -> usize
    requires { IsSorted nat_cmp ends.now }
    ensures { result ≡ count_by (λ end. nat_lt end to) ends.now }
{
    ends.partition_point(
        |end: &u32| -> bool
            ensures { result ≡ nat_lt end.now to }
        { *end < to },
    )
}

/// The place of one more end: behind the lesser ones, and behind the equal ones that were passed.
fn next_place(passed: &mut Vec<u16>, first: usize) -> u16
    requires within { first < length passed.old.items }
    requires few { first + slice_index passed.old.items first + 1 < 2 ^ 16 }
    ensures place { result ≡ first + slice_index passed.old.items first }
    ensures passed { passed.new.items ≡
        slice_set passed.old.items first (slice_index passed.old.items first + 1) }
{
    let before = passed[first];
    passed[first] = before + 1;
    first as u16 + before
}
