// Where all parts of the container are.
ghost use Rattle.std.specs.Prelude.{◌≡◌, ◌+◌, ◌<◌, ◌≤◌, IfOk, length, sum};
ghost use Rattle.cfb_layout.specs.Counts.{mini_counts, sector_counts, fat_count, Fits, stream_start};
ghost use Rattle.cfb_layout.specs.Layout.{root_fields, stream_fields};

use crate::chains::Chains;
use crate::entries::EntryFields;
use crate::sectors::units_for;
use crate::sizes::{CUTOFF, large_sectors, mini_sectors};
use crate::tree::{NO_ENTRY, all_entries, part_of};
use cfb_sectors::{MINI_SECTOR_LEN, SECTOR_LEN};
use doc_bits::Memory;
use std::alloc::Global;
use std::marker::Model;

/// The parts behind the streams, by their numbers from the number of streams on.
pub const MINI_STREAM: usize = 0;

pub const MINI_FAT: usize = 1;

pub const DIRECTORY: usize = 2;

/// STGTY_STREAM, STGTY_ROOT, and the colour of each entry that is used.
const STREAM: u8 = 2;

const ROOT: u8 = 5;

const BLACK: u8 = 1;

/// The length of the root's name in bytes, with its zero unit.
const ROOT_NAME_LENGTH: u16 = 22;

/// Streams that fit, by their lengths: the chains of all parts but the FAT, and of the streams in the
/// mini stream.
#[derive(Drop)]
pub struct Plan {
    lengths: Vec<u64>,
    minis: Chains,
    sectors: Chains,
}

impl Model for Plan {
    ghost use Rattle.std.specs.Prelude.{List, ℕ};
    ghost use Rattle.cfb_layout.specs.Plan.{IsPlan};

    ghost Value = { List ℕ };

    ghost view = { λ p. p.lengths.items };

    ghost invariant = { λ p. IsPlan p.lengths.items p.minis p.sectors };
}

impl Plan {
    /// The plan of streams of these lengths.
    pub(crate) fn new(alloc: Global, lengths: Vec<u64>) -> Result<Plan, Memory>
        requires few { length lengths.items ≤ 1023 }
        requires fits { Fits lengths.items }
        ensures { IfOk result (λ plan. plan ≡ lengths.items) }
    {
        let minis = count_minis(alloc, &lengths)?;
        let minis = Chains::new(alloc, minis)?;
        let sectors = count_sectors(alloc, &lengths, minis.total())?;
        let sectors = Chains::new(alloc, sectors)?;
        Ok(Plan {
            lengths,
            minis,
            sectors,
        })
    }

    /// The number of streams.
    pub(crate) fn count(&self) -> usize
        ensures is { result ≡ length self.now }
        ensures few { length self.now ≤ 1023 }
        ensures fits { Fits self.now }
    {
        self.lengths.len()
    }

    /// The chains in the mini stream.
    pub(crate) fn minis(&self) -> &Chains
        ensures { result.now ≡ mini_counts self.now }
    {
        &self.minis
    }

    /// The chains of the streams, of the mini stream, the mini FAT and the directory.
    pub(crate) fn sectors(&self) -> &Chains
        ensures is { result.now ≡ sector_counts self.now }
        ensures len { length result.now ≡ length self.now + 3 }
    {
        &self.sectors
    }

    /// The number of FAT sectors.
    pub(crate) fn fats(&self) -> u32
        ensures is { result ≡ fat_count self.now }
        ensures few { result ≤ 109 }
    {
        units_for(127, self.sectors.total() as u64) as u32
    }

    /// The numbers of the root's entry.
    pub(crate) fn root(&self) -> EntryFields
        ensures { result ≡ root_fields self.now }
    {
        let count = self.lengths.len();
        EntryFields {
            name_length: ROOT_NAME_LENGTH,
            kind: ROOT,
            colour: BLACK,
            left: NO_ENTRY,
            right: NO_ENTRY,
            child: all_entries(count as u32).top(),
            start: self.sectors.first_sector(count + MINI_STREAM),
            size: MINI_SECTOR_LEN as u32 * self.minis.total(),
        }
    }

    /// The start of a stream.
    fn stream_start(&self, i: usize) -> u32
        requires { i < length self.now }
        ensures { result ≡ stream_start self.now i }
    {
        if self.lengths[i] < CUTOFF {
            self.minis.first_sector(i)
        } else {
            self.sectors.first_sector(i)
        }
    }

    /// The numbers of the entry of a stream, whose name has so many units.
    pub(crate) fn stream(&self, i: usize, units: usize) -> EntryFields
        requires inside { i < length self.now }
        requires short { units ≤ 31 }
        ensures { result ≡ stream_fields self.now i units }
    {
        let part = part_of(self.lengths.len() as u32, i as u32 + 1);
        EntryFields {
            name_length: 2 * units as u16 + 2,
            kind: STREAM,
            colour: BLACK,
            left: part.lower().top(),
            right: part.upper().top(),
            child: NO_ENTRY,
            start: self.stream_start(i),
            size: self.lengths[i] as u32,
        }
    }
}

/// The mini sectors of each stream.
fn count_minis(alloc: Global, lengths: &[u64]) -> Result<Vec<u32>, Memory>
    ensures { IfOk result (λ counts. counts.items ≡ mini_counts lengths.now) }
{
    let mut counts = Vec::new(alloc);
    for len in lengths {
        counts.push(mini_sectors(*len) as u32)?;
    }
    Ok(counts)
}

/// The sectors of each part but the FAT.
fn count_sectors(alloc: Global, lengths: &[u64], minis: u32) -> Result<Vec<u32>, Memory>
    requires few { length lengths.now ≤ 1023 }
    requires fits { Fits lengths.now }
    requires stored { minis ≡ sum (mini_counts lengths.now) }
    ensures { IfOk result (λ counts. counts.items ≡ sector_counts lengths.now) }
{
    let mut counts = Vec::new(alloc);
    for len in lengths {
        counts.push(large_sectors(*len) as u32)?;
    }
    let minis = minis as u64;
    counts.push(units_for(SECTOR_LEN as u64, MINI_SECTOR_LEN as u64 * minis) as u32)?;
    counts.push(units_for(128, minis) as u32)?;
    counts.push(units_for(4, lengths.len() as u64 + 1) as u32)?;
    Ok(counts)
}
