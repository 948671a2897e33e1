// [MS-CFB] Directory entries, by the offset in the file at which they are, and those that the root reaches.
ghost use Rattle.std.specs.Prelude.{◌≡◌, [], ◌+◌, ◌*◌, ◌<◌, ◌≤◌, IfOk, OnOk, length};
ghost use Rattle.doc_bits.specs.Rules.{LeastOrNone};
ghost use Rattle.cfb_sectors.specs.Chain.{AreSectorsOf};
ghost use Rattle.cfb_directory.specs.Directory.{upper_case};
ghost use Rattle.cfb_directory.specs.Reach.{entry_place as place_of, entry_count, BreaksRoot, ListsReached};
ghost use Rattle.cfb_directory.specs.Seen.{IsSeen, FollowsLink};

use cfb_sectors::SECTOR_LEN;
use doc_bits::{Memory, get16, get32};
use std::alloc::Global;

/// The length of a directory entry.
pub const ENTRY_LEN: usize = 128;

/// Where an entry has its fields.
pub const NAME_LEN: usize = 64;

pub const ENTRY_TYPE: usize = 66;

pub const LEFT: usize = 68;

pub const RIGHT: usize = 72;

pub const CHILD: usize = 76;

pub const CLSID: usize = 80;

pub const ENTRY_START: usize = 116;

pub const ENTRY_SIZE: usize = 120;

/// The types of entries.
pub const TYPE_STORAGE: u8 = 1;

pub const TYPE_STREAM: u8 = 2;

pub const TYPE_ROOT: u8 = 5;

/// A link that names no entry.
pub const NOSTREAM: u32 = 0xFFFF_FFFF;

/// The entries of one sector.
const ENTRIES: usize = 4;

/// Where entry `k` of a directory in these sectors is.
pub fn entry_place(file: &[u8], directory: &[u32], k: usize) -> usize
    requires sectors { AreSectorsOf file.now directory.now }
    requires there { k < entry_count directory.now }
    ensures place { result ≡ place_of directory.now k }
    ensures inside { result + 128 ≤ length file.now }
{
    let _file = file;
    (directory[k / ENTRIES] as usize + 1) * SECTOR_LEN + ENTRY_LEN * (k % ENTRIES)
}

/// The type byte of entry 0, where that is not the root.
pub(crate) fn wrong_root(file: &[u8], directory: &[u32]) -> Option<u32>
    requires sectors { AreSectorsOf file.now directory.now }
    requires there { 0 < entry_count directory.now }
    ensures { LeastOrNone (BreaksRoot file.now directory.now) result }
{
    let at = entry_place(file, directory, 0) + ENTRY_TYPE;
    if file[at] != TYPE_ROOT {
        Some(at as u32)
    } else {
        None
    }
}

/// Puts the entry that a link names last, where it is there and was not named yet.
fn follow(order: &mut Vec<u32>, seen: &mut [bool], link: u32) -> Result<(), Memory>
    requires { IsSeen order.old.items seen.old }
    ensures seen { OnOk result (IsSeen order.new.items seen.new) }
    ensures follows { OnOk result (FollowsLink (length seen.old) link order.old.items order.new.items) }
{
    let entry = link as usize;
    if entry > 0 && entry < seen.len() && !seen[entry] {
        seen[entry] = true;
        order.push(link)?;
    }
    Ok(())
}

/// Lists the entries that the root reaches. No entry is marked yet.
fn reach_all(
    alloc: Global,
    file: &[u8],
    directory: &[u32],
    seen: &mut [bool],
) -> Result<Vec<u32>, Memory>
    requires sectors { AreSectorsOf file.now directory.now }
    requires there { 0 < length directory.now }
    requires marks { length seen.old ≡ entry_count directory.now }
    requires none { IsSeen [] seen.old }
    ensures { IfOk result (λ order. ListsReached file.now directory.now order.items) }
{
    let mut order = Vec::new(alloc);
    let child = get32(file, entry_place(file, directory, 0) + CHILD);
    follow(&mut order, seen, child)?;
    let mut next = 0;
    while next < order.len() {
        let at = entry_place(file, directory, order[next] as usize);
        follow(&mut order, seen, get32(file, at + LEFT))?;
        follow(&mut order, seen, get32(file, at + RIGHT))?;
        next += 1;
    }
    Ok(order)
}

/// The entries that the root reaches, each of them once.
pub(crate) fn reach(alloc: Global, file: &[u8], directory: &[u32]) -> Result<Vec<u32>, Memory>
    requires sectors { AreSectorsOf file.now directory.now }
    requires there { 0 < length directory.now }
    requires few { length directory.now ≤ 256 }
    ensures { IfOk result (λ order. ListsReached file.now directory.now order.items) }
{
    let mut seen = vec![in alloc; false; ENTRIES * directory.len()]?;
    let order = reach_all(alloc, file, directory, &mut seen)?;
    Ok(order)
}

/// The upper case of a unit, of ASCII letters alone.
pub fn upper(unit: u16) -> u16
    ensures { result ≡ upper_case unit }
{
    if unit < 97 {
        unit
    } else if unit < 123 {
        unit - 32
    } else {
        unit
    }
}
