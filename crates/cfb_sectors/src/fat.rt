// [MS-CFB] The FAT and the mini FAT: tables of 32-bit entries that are in sectors, 128 of them in each.
ghost use Rattle.std.specs.Prelude.{◌≡◌, ◌+◌, ◌*◌, ◌/◌, ◌%◌, ◌<◌, ◌≤◌, ◌↔◌, IsTrue, length, slice_index, IfOk};
ghost use Rattle.doc_bits.specs.Rules.{LeastOrNone};
ghost use Rattle.cfb_sectors.specs.Header.{sector_len, fat_sector_count, fat_sectors};
ghost use Rattle.cfb_sectors.specs.Header.{table_place as place_of, valid_below};
ghost use Rattle.cfb_sectors.specs.HeaderRules.{BreaksFat, IsListedBefore};
ghost use Rattle.cfb_sectors.specs.Chain.{AreSectorsOf, IsTable};

use crate::opening::SECTOR_LEN;
use doc_bits::{Memory, get32};
use std::alloc::Global;

/// Where the header has the number of FAT sectors, and the first of their numbers.
pub const FAT_COUNT: usize = 44;

pub const FAT_SECTORS: usize = 76;

/// The most FAT sectors that the header names.
const MAX_FAT_SECTORS: usize = 109;

/// The entries of one sector of a table.
pub const TABLE_LEN: usize = 128;

/// The number below which the sectors of the file are valid.
pub(crate) fn valid_sectors(file: &[u8]) -> usize
    requires { sector_len ≤ length file.now }
    ensures { result ≡ valid_below file.now }
{
    let fat = TABLE_LEN * get32(file, FAT_COUNT) as usize;
    (file.len() / SECTOR_LEN - 1).min(fat)
}

/// The least place at which the header's FAT sectors are wrong.
pub(crate) fn wrong_fat(file: &[u8]) -> Option<u32>
    requires { sector_len ≤ length file.now }
    ensures { LeastOrNone (BreaksFat file.now) result }
{
    let count = get32(file, FAT_COUNT) as usize;
    if count == 0 || count > MAX_FAT_SECTORS {
        return Some(FAT_COUNT as u32);
    }
    let valid = valid_sectors(file);
    for k in 0..count {
        let number = get32(file, FAT_SECTORS + 4 * k) as usize;
        if number >= valid || is_listed_before(file, k) {
            return Some((FAT_SECTORS + 4 * k) as u32);
        }
    }
    None
}

/// Whether the number of FAT sector `k` is there already.
fn is_listed_before(file: &[u8], k: usize) -> bool
    requires header { sector_len ≤ length file.now }
    requires in_header { k < 109 }
    ensures { IsTrue result ↔ IsListedBefore file.now k }
{
    let number = get32(file, FAT_SECTORS + 4 * k);
    for j in 0..k {
        if get32(file, FAT_SECTORS + 4 * j) == number {
            return true;
        }
    }
    false
}

/// The numbers of the FAT sectors.
pub(crate) fn read_fat_sectors(alloc: Global, file: &[u8]) -> Result<Vec<u32>, Memory>
    requires header { sector_len ≤ length file.now }
    requires few { fat_sector_count file.now ≤ 109 }
    ensures { IfOk result (λ sectors. sectors.items ≡ fat_sectors file.now) }
{
    let count = get32(file, FAT_COUNT) as usize;
    let mut sectors = Vec::with_capacity(alloc, count)?;
    for k in 0..count {
        sectors.push(get32(file, FAT_SECTORS + 4 * k))?;
    }
    Ok(sectors)
}

/// Where entry `s` of a table is, in bytes from the start of the file.
pub fn table_place(sectors: &[u32], s: usize) -> usize
    requires { s < 128 * length sectors.now }
    ensures { result ≡ place_of (λ k. slice_index sectors.now k) s }
{
    (sectors[s / TABLE_LEN] as usize + 1) * SECTOR_LEN + 4 * (s % TABLE_LEN)
}

/// The entries of the table that is in these sectors.
pub fn read_table(alloc: Global, file: &[u8], sectors: &[u32]) -> Result<Vec<u32>, Memory>
    requires { AreSectorsOf file.now sectors.now }
    ensures { IfOk result (λ entries. IsTable file.now sectors.now entries.items) }
{
    let count = TABLE_LEN * sectors.len();
    let mut entries = Vec::with_capacity(alloc, count)?;
    for s in 0..count {
        let place = table_place(sectors, s);
        entries.push(get32(file, place))?;
    }
    Ok(entries)
}
