// The streams and the storages of the root in the order of their names: the length first, then the units in upper case.
ghost use Rattle.std.specs.Prelude.{◌≡◌, ℕ, ◌+◌, ◌*◌, ◌<◌, ◌≤◌, ◌↔◌, IsTrue, IfOk, OnOk, length, slice_index};
ghost use Rattle.doc_bits.specs.Rules.{Nowhere};
ghost use Rattle.cfb_sectors.specs.Chain.{AreSectorsOf};
ghost use Rattle.cfb_directory.specs.Directory.{entry_name_length, entry_type, EntryBefore};
ghost use Rattle.cfb_directory.specs.Reach.{entry_count, entry_place as place_of, ListsReached, IsDirectory};
ghost use Rattle.cfb_directory.specs.Reach.{BreaksName};
ghost use Rattle.cfb_directory.specs.Order.{AreOrdered, ListsStreams, ListsFilled, IsFirstAfter, IsPutIn, PutsWanted};
ghost use Rattle.cfb_directory.specs.Storages.{IsStorageWithChild};

use crate::directory::{
    CHILD, ENTRY_TYPE, NAME_LEN, NOSTREAM, TYPE_STORAGE, TYPE_STREAM, entry_place, upper,
};
use doc_bits::{Memory, get16, get32};
use std::alloc::Global;

/// Whether the name of one entry comes before that of another. The first has at most 31 units.
fn comes_before(file: &[u8], at: usize, other: usize) -> bool
    requires first { at + 128 ≤ length file.now }
    requires second { other + 128 ≤ length file.now }
    requires short { entry_name_length file.now at ≤ 64 }
    ensures { IsTrue result ↔ EntryBefore file.now at other }
{
    let len = get16(file, at + NAME_LEN);
    let other_len = get16(file, other + NAME_LEN);
    if len != other_len {
        return len < other_len;
    }
    for i in 0..(len as usize / 2).saturating_sub(1) {
        let unit = upper(get16(file, at + 2 * i));
        let other_unit = upper(get16(file, other + 2 * i));
        if unit != other_unit {
            return unit < other_unit;
        }
    }
    false
}

/// The first of the entries, which are in the order of their names, whose name comes after that of an entry, or their
/// number. It is looked for by halves.
pub(crate) fn place_for(file: &[u8], directory: &[u32], entries: &[u32], entry: u32) -> usize
    requires sectors { AreSectorsOf file.now directory.now }
    requires within { (i : ℕ) → i < length entries.now → slice_index entries.now i < entry_count directory.now }
    requires there { entry < entry_count directory.now }
    requires short { entry_name_length file.now (place_of directory.now entry) ≤ 64 }
    requires order { AreOrdered file.now directory.now entries.now }
    ensures { IsFirstAfter file.now directory.now entries.now entry result }
{
    let at = entry_place(file, directory, entry as usize);
    let mut low = 0;
    let mut high = entries.len();
    while low < high {
        let middle = low + (high - low) / 2;
        let other = entry_place(file, directory, entries[middle] as usize);
        if comes_before(file, at, other) {
            high = middle;
        } else {
            low = middle + 1;
        }
    }
    low
}

/// Puts an entry in its place among the others.
fn put_entry(
    file: &[u8],
    directory: &[u32],
    entries: &mut Vec<u32>,
    entry: u32,
) -> Result<(), Memory>
    requires sectors { AreSectorsOf file.now directory.now }
    requires within { (i : ℕ) → i < length entries.old.items
        → slice_index entries.old.items i < entry_count directory.now }
    requires there { entry < entry_count directory.now }
    requires short { entry_name_length file.now (place_of directory.now entry) ≤ 64 }
    requires order { AreOrdered file.now directory.now entries.old.items }
    ensures { OnOk result (IsPutIn file.now directory.now entry entries.old.items entries.new.items) }
{
    let place = place_for(file, directory, entries, entry);
    entries.insert(place, entry)?;
    Ok(())
}

/// Puts the entry of a stream in its place among the others. An entry of another kind is left out.
fn put_stream(
    file: &[u8],
    directory: &[u32],
    entries: &mut Vec<u32>,
    entry: u32,
) -> Result<(), Memory>
    requires sectors { AreSectorsOf file.now directory.now }
    requires within { (i : ℕ) → i < length entries.old.items
        → slice_index entries.old.items i < entry_count directory.now }
    requires there { entry < entry_count directory.now }
    requires short { entry_name_length file.now (place_of directory.now entry) ≤ 64 }
    requires order { AreOrdered file.now directory.now entries.old.items }
    ensures { OnOk result (PutsWanted file.now directory.now
        (entry_type file.now (place_of directory.now entry) ≡ 2) entry entries.old.items entries.new.items) }
{
    let at = entry_place(file, directory, entry as usize);
    if file[at + ENTRY_TYPE] != TYPE_STREAM {
        return Ok(());
    }
    put_entry(file, directory, entries, entry)
}

/// Puts the entry of a storage that has a child in its place among the others. Another entry is left out.
fn put_storage(
    file: &[u8],
    directory: &[u32],
    entries: &mut Vec<u32>,
    entry: u32,
) -> Result<(), Memory>
    requires sectors { AreSectorsOf file.now directory.now }
    requires within { (i : ℕ) → i < length entries.old.items
        → slice_index entries.old.items i < entry_count directory.now }
    requires there { entry < entry_count directory.now }
    requires short { entry_name_length file.now (place_of directory.now entry) ≤ 64 }
    requires order { AreOrdered file.now directory.now entries.old.items }
    ensures { OnOk result (PutsWanted file.now directory.now
        (IsStorageWithChild file.now directory.now entry) entry entries.old.items entries.new.items) }
{
    let at = entry_place(file, directory, entry as usize);
    if file[at + ENTRY_TYPE] != TYPE_STORAGE || get32(file, at + CHILD) == NOSTREAM {
        return Ok(());
    }
    put_entry(file, directory, entries, entry)
}

/// The entries of the streams, in the order of their names.
pub(crate) fn list_streams(
    alloc: Global,
    file: &[u8],
    directory: &[u32],
    order: &[u32],
) -> Result<Vec<u32>, Memory>
    requires sectors { AreSectorsOf file.now directory.now }
    requires directory_is { IsDirectory file.now directory.now }
    requires lists { ListsReached file.now directory.now order.now }
    requires names { Nowhere (BreaksName file.now directory.now) }
    ensures lists { IfOk result (λ entries. ListsStreams file.now directory.now entries.items) }
    ensures few { IfOk result (λ entries. length entries.items ≤ length order.now) }
{
    let mut entries = Vec::new(alloc);
    for entry in order {
        put_stream(file, directory, &mut entries, *entry)?;
    }
    Ok(entries)
}

/// The entries of the storages that have a child, in the order of their names.
pub(crate) fn list_storages(
    alloc: Global,
    file: &[u8],
    directory: &[u32],
    order: &[u32],
) -> Result<Vec<u32>, Memory>
    requires sectors { AreSectorsOf file.now directory.now }
    requires directory_is { IsDirectory file.now directory.now }
    requires lists { ListsReached file.now directory.now order.now }
    requires names { Nowhere (BreaksName file.now directory.now) }
    ensures { IfOk result (λ entries. ListsFilled file.now directory.now entries.items) }
{
    let mut entries = Vec::new(alloc);
    for entry in order {
        put_storage(file, directory, &mut entries, *entry)?;
    }
    Ok(entries)
}
