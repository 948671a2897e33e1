// Rule 9: the names of the entries that are reached.
ghost use Rattle.std.specs.Prelude.{◌+◌, ◌*◌, ◌<◌, ◌≤◌, ◌↔◌, ℕ, IfOk, IfSome, IsTrue, length, slice_index};
ghost use Rattle.doc_bits.specs.Rules.{LeastOrNone, Nowhere};
ghost use Rattle.cfb_sectors.specs.Chain.{AreSectorsOf};
ghost use Rattle.cfb_directory.specs.Directory.{HaveOneName, AreSameNames, entry_name_length};
ghost use Rattle.cfb_directory.specs.Reach.{entry_count, ListsReached};
ghost use Rattle.cfb_directory.specs.Reach.{IsNameTaken, IsWrongName, IsWrongNameLength, BreaksName};
ghost use Rattle.cfb_directory.specs.Order.{AreOrdered, IsNameInFront, IsNewName};

use crate::directory::{NAME_LEN, entry_place, upper};
use crate::order::place_for;
use doc_bits::{Memory, get16, lesser};
use std::alloc::Global;

/// The least and the greatest length of a name in bytes, with its terminator.
const MIN_NAME_LEN: u16 = 4;

const MAX_NAME_LEN: u16 = 64;

/// Whether two entries have one name.
fn have_one_name(file: &[u8], at: usize, other: usize) -> bool
    requires first { at + 128 ≤ length file.now }
    requires second { other + 128 ≤ length file.now }
    requires short { entry_name_length file.now other ≤ 64 }
    ensures { IsTrue result ↔ HaveOneName file.now at other }
{
    let len = get16(file, at + NAME_LEN);
    if len != get16(file, other + NAME_LEN) {
        return false;
    }
    for i in 0..(len as usize / 2).saturating_sub(1) {
        if upper(get16(file, at + 2 * i)) != upper(get16(file, other + 2 * i)) {
            return false;
        }
    }
    true
}

/// Whether an entry at a lower offset has the name of the entry at an offset.
fn is_name_taken(file: &[u8], directory: &[u32], order: &[u32], at: usize) -> bool
    requires sectors { AreSectorsOf file.now directory.now }
    requires lists { ListsReached file.now directory.now order.now }
    requires inside { at + 128 ≤ length file.now }
    requires short { entry_name_length file.now at ≤ 64 }
    ensures { IsTrue result ↔ IsNameTaken file.now directory.now at }
{
    for entry in order {
        let other = entry_place(file, directory, *entry as usize);
        if other < at && have_one_name(file, other, at) {
            return true;
        }
    }
    false
}

/// The length field of an entry whose name has a wrong length or is taken.
fn wrong_name(file: &[u8], directory: &[u32], order: &[u32], entry: u32) -> Option<u32>
    requires sectors { AreSectorsOf file.now directory.now }
    requires lists { ListsReached file.now directory.now order.now }
    requires there { entry < entry_count directory.now }
    ensures { LeastOrNone (IsWrongName file.now directory.now entry) result }
{
    let at = entry_place(file, directory, entry as usize);
    let len = get16(file, at + NAME_LEN);
    if len % 2 != 0 || len < MIN_NAME_LEN || len > MAX_NAME_LEN {
        return Some((at + NAME_LEN) as u32);
    }
    if is_name_taken(file, directory, order, at) {
        return Some((at + NAME_LEN) as u32);
    }
    None
}

/// The least length field of a wrong name. Each name is compared with all others.
fn least_wrong_name(file: &[u8], directory: &[u32], order: &[u32]) -> Option<u32>
    requires sectors { AreSectorsOf file.now directory.now }
    requires lists { ListsReached file.now directory.now order.now }
    ensures { LeastOrNone (BreaksName file.now directory.now) result }
{
    let mut least = None;
    for entry in order {
        least = lesser(least, wrong_name(file, directory, order, *entry));
    }
    least
}

/// Whether a name cannot have a length in bytes.
fn is_wrong_len(len: u16) -> bool
    ensures { IsTrue result ↔ IsWrongNameLength len }
{
    len % 2 != 0 || len < MIN_NAME_LEN || len > MAX_NAME_LEN
}

/// Whether the entry in front of a place has the name of the entry at an offset.
fn is_name_in_front(
    file: &[u8],
    directory: &[u32],
    entries: &[u32],
    place: usize,
    at: usize,
) -> bool
    requires sectors { AreSectorsOf file.now directory.now }
    requires within { (i : ℕ) → i < length entries.now → slice_index entries.now i < entry_count directory.now }
    requires place { place ≤ length entries.now }
    requires inside { at + 128 ≤ length file.now }
    requires short { entry_name_length file.now at ≤ 64 }
    ensures { IsTrue result ↔ IsNameInFront file.now directory.now entries.now place at }
{
    if place == 0 {
        return false;
    }
    let other = entry_place(file, directory, entries[place - 1] as usize);
    have_one_name(file, other, at)
}

/// Where an entry belongs among entries in the order of their names. Nothing where its name has a wrong length or is
/// that of one of them.
fn new_place(file: &[u8], directory: &[u32], entries: &[u32], entry: u32) -> Option<usize>
    requires sectors { AreSectorsOf file.now directory.now }
    requires within { (i : ℕ) → i < length entries.now → slice_index entries.now i < entry_count directory.now }
    requires there { entry < entry_count directory.now }
    requires order { AreOrdered file.now directory.now entries.now }
    ensures { IfSome result (IsNewName file.now directory.now entries.now entry) }
{
    let at = entry_place(file, directory, entry as usize);
    if is_wrong_len(get16(file, at + NAME_LEN)) {
        return None;
    }
    let place = place_for(file, directory, entries, entry);
    if is_name_in_front(file, directory, entries, place, at) {
        return None;
    }
    Some(place)
}

/// Whether each name has a right length and no two entries have one name. Each is looked up among those before it.
fn are_names_distinct(
    alloc: Global,
    file: &[u8],
    directory: &[u32],
    order: &[u32],
) -> Result<bool, Memory>
    requires sectors { AreSectorsOf file.now directory.now }
    requires lists { ListsReached file.now directory.now order.now }
    ensures { IfOk result (λ distinct. IsTrue distinct → Nowhere (BreaksName file.now directory.now)) }
{
    let mut sorted = Vec::new(alloc);
    for entry in order {
        let Some(place) = new_place(file, directory, &sorted, *entry) else {
            return Ok(false);
        };
        sorted.insert(place, *entry)?;
    }
    Ok(true)
}

/// The least length field of a wrong name. Names are compared in pairs only where one is wrong.
pub(crate) fn wrong_names(
    alloc: Global,
    file: &[u8],
    directory: &[u32],
    order: &[u32],
) -> Result<Option<u32>, Memory>
    requires sectors { AreSectorsOf file.now directory.now }
    requires lists { ListsReached file.now directory.now order.now }
    ensures { IfOk result (LeastOrNone (BreaksName file.now directory.now)) }
{
    if are_names_distinct(alloc, file, directory, order)? {
        return Ok(None);
    }
    Ok(least_wrong_name(file, directory, order))
}

/// Whether two names are equal. ASCII letters are compared by their upper case.
pub fn same_name(name: &[u16], other: &[u16]) -> bool
    ensures { IsTrue result ↔ AreSameNames name.now other.now }
{
    if name.len() != other.len() {
        return false;
    }
    for i in 0..name.len() {
        if upper(name[i]) != upper(other[i]) {
            return false;
        }
    }
    true
}
