// How many sectors a save adds, and which.
ghost use Rattle.std.specs.Prelude.{◌≡◌, ◌⊎◌, ◌↔◌, ◌+◌, ◌*◌, ◌^◌, ◌<◌, ◌≤◌, IsTrue, length};
ghost use Rattle.cfb_sectors.specs.Header.{sector_len, fat_sector_count};
ghost use Rattle.cfb_layout.specs.Sectors.{units_for};
ghost use Rattle.cfb_in_place.specs.Change.{added_for, grown_more, fresh_from, fat_from, end_of, sectors_after};
ghost use Rattle.cfb_in_place.specs.Tables.{IsNewEntry};

use crate::tables::more_fat_sectors;
use cfb_layout::{FATSECT, FREESECT};
use cfb_sectors::{ENDOFCHAIN, FAT_COUNT, SECTOR_LEN, TABLE_LEN};
use doc_bits::get32;
use std::marker::Model;

/// The first added sector, and how many the stream that grows gets, the one that is written anew, and the FAT.
#[derive(Drop)]
pub(crate) struct Added {
    pub(crate) from: u32,
    pub(crate) grown: u32,
    pub(crate) fresh: u32,
    pub(crate) fat: u32,
}

impl Model for Added {
    ghost use Rattle.std.specs.Prelude.{◌^◌, ◌<◌};
    ghost use Rattle.cfb_in_place.specs.Change.{Added, end_of};

    ghost Value = { Added };

    ghost view = { λ a. record { from = a.from; grown = a.grown; fresh = a.fresh; fat = a.fat } };

    ghost invariant = { λ a.
        end_of (record { from = a.from; grown = a.grown; fresh = a.fresh; fat = a.fat }) < 2 ^ 31 };
}

impl Added {
    /// What a save adds to a file. The old chain has `chain` sectors; the two streams get so many bytes.
    pub(crate) fn new(file: &[u8], chain: usize, grown: usize, table: usize) -> Added
        requires header { sector_len ≤ length file.now }
        requires short { length file.now < 2 ^ 32 }
        requires few { fat_sector_count file.now ≤ 109 }
        requires grown_short { grown < 2 ^ 31 }
        requires table_short { table < 2 ^ 31 }
        ensures { result ≡ added_for file.now chain grown table }
    {
        let fat_count = get32(file, FAT_COUNT);
        let from = (file.len() / SECTOR_LEN - 1).min(TABLE_LEN * fat_count as usize) as u32;
        let more = sectors_more(chain, grown);
        let fresh = sectors_for(table);
        let fat = more_fat_sectors(fat_count as u64, (from + more + fresh) as u64) as u32;
        Added {
            from,
            grown: more,
            fresh,
            fat,
        }
    }

    /// The sectors of the file after.
    pub(crate) fn sectors_after(&self, file: &[u8]) -> u64
        requires { sector_len ≤ length file.now }
        ensures { result ≡ sectors_after file.now self.now }
    {
        let count = (file.len() / SECTOR_LEN - 1) as u64;
        count.max(self.end() as u64)
    }

    /// The first sector of the stream that is written anew.
    pub(crate) fn fresh_from(&self) -> u32
        ensures { result ≡ fresh_from self.now }
    {
        self.from + self.grown
    }

    /// The first added sector of the FAT.
    pub(crate) fn fat_from(&self) -> u32
        ensures { result ≡ fat_from self.now }
    {
        self.fresh_from() + self.fresh
    }

    /// The first sector behind all that are added.
    pub(crate) fn end(&self) -> u32
        ensures { result ≡ end_of self.now }
    {
        self.fat_from() + self.fat
    }

    /// The FAT's entry of a sector that is added, or that nobody has behind these.
    pub(crate) fn entry(&self, sector: u32) -> u32
        requires { self.now.from ≤ sector }
        ensures { IsNewEntry self.now sector result }
    {
        if sector >= self.end() {
            return FREESECT;
        }
        if sector >= self.fat_from() {
            return FATSECT;
        }
        if self.is_last(sector) {
            return ENDOFCHAIN;
        }
        sector + 1
    }

    /// Whether it is the last sector that one of the two streams gets.
    fn is_last(&self, sector: u32) -> bool
        requires { sector + 1 < 2 ^ 32 }
        ensures { IsTrue result ↔ ((sector + 1 ≡ fresh_from self.now) ⊎ (sector + 1 ≡ fat_from self.now)) }
    {
        sector + 1 == self.fresh_from() || sector + 1 == self.fat_from()
    }
}

/// The sectors that a stream of so many bytes needs.
fn sectors_for(len: usize) -> u32
    requires { len < 2 ^ 31 }
    ensures { result ≡ units_for sector_len len }
{
    ((len + (SECTOR_LEN - 1)) / SECTOR_LEN) as u32
}

/// The sectors that a stream of so many bytes needs beyond those of its chain.
fn sectors_more(chain: usize, len: usize) -> u32
    requires { len < 2 ^ 31 }
    ensures { result ≡ grown_more chain len }
{
    let needed = sectors_for(len);
    if needed as usize <= chain {
        return 0;
    }
    needed - chain as u32
}
