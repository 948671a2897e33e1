// Rules 3 and 4: the fields of the header.
ghost use Rattle.std.specs.Prelude.{◌≤◌, length};
ghost use Rattle.doc_bits.specs.Rules.{LeastOrNone};
ghost use Rattle.cfb_sectors.specs.HeaderRules.{BreaksHeader, IsOther32};
ghost use Rattle.cfb_sectors.specs.Header.{sector_len};

use doc_bits::{get16, get32};

/// Where the header has its fields.
pub const VERSION: usize = 26;

pub const BYTE_ORDER: usize = 28;

pub const SECTOR_SHIFT: usize = 30;

pub const MINI_SECTOR_SHIFT: usize = 32;

pub const DIRECTORY_START: usize = 48;

pub const MINI_CUTOFF: usize = 56;

pub const MINI_FAT_START: usize = 60;

pub const MINI_FAT_COUNT: usize = 64;

pub const DIFAT_COUNT: usize = 72;

/// Streams of so many bytes are in sectors of their own.
pub const CUTOFF: u32 = 4_096;

/// The first field that is not that of version 3.
pub(crate) fn wrong_header(file: &[u8]) -> Option<u32>
    requires { sector_len ≤ length file.now }
    ensures { LeastOrNone (BreaksHeader file.now) result }
{
    if get16(file, VERSION) != 3 {
        Some(VERSION as u32)
    } else if get16(file, BYTE_ORDER) != 0xFFFE {
        Some(BYTE_ORDER as u32)
    } else if get16(file, SECTOR_SHIFT) != 9 {
        Some(SECTOR_SHIFT as u32)
    } else if get16(file, MINI_SECTOR_SHIFT) != 6 {
        Some(MINI_SECTOR_SHIFT as u32)
    } else if get32(file, MINI_CUTOFF) != CUTOFF {
        Some(MINI_CUTOFF as u32)
    } else {
        None
    }
}

/// The number of DIFAT sectors, where there are any.
pub(crate) fn wrong_difat(file: &[u8]) -> Option<u32>
    requires { sector_len ≤ length file.now }
    ensures { LeastOrNone (IsOther32 file.now 72 0) result }
{
    if get32(file, DIFAT_COUNT) != 0 {
        Some(DIFAT_COUNT as u32)
    } else {
        None
    }
}
