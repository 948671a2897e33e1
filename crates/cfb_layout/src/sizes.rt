// How many sectors streams need, by their lengths alone.
ghost use Rattle.std.specs.Prelude.{◌≡◌, ◌^◌, ◌<◌, ◌≤◌, sum};
ghost use Rattle.cfb_layout.specs.Sectors.{units_for};
ghost use Rattle.cfb_layout.specs.Counts.{large_len, small_len, sectors_needed};
ghost use Rattle.cfb_sectors.specs.Header.{sector_len, mini_sector_len};

use crate::sectors::units_for;
use cfb_sectors::{MINI_SECTOR_LEN, SECTOR_LEN};

/// Streams of so many bytes are in sectors of their own.
pub const CUTOFF: u64 = 4_096;

/// The sectors that 109 FAT sectors can name at most.
pub const MAX_SECTORS: u64 = 13_952;

/// The sectors of a stream's own.
pub(crate) fn large_sectors(len: u64) -> u64
    requires { len < 2 ^ 62 }
    ensures is { result ≡ units_for sector_len (large_len len) }
    ensures few { result ≤ len }
{
    if len < CUTOFF {
        0
    } else {
        units_for(SECTOR_LEN as u64, len)
    }
}

/// The mini sectors of a stream.
pub(crate) fn mini_sectors(len: u64) -> u64
    ensures is { result ≡ units_for mini_sector_len (small_len len) }
    ensures few { result ≤ len }
    ensures most { result ≤ 64 }
{
    if len < CUTOFF {
        units_for(MINI_SECTOR_LEN as u64, len)
    } else {
        0
    }
}

/// The number of sectors after the header in the canonical container of streams of these lengths. It
/// fits a compound file where it is at most 13,952.
pub fn sectors_needed(lengths: &[u64]) -> u64
    requires { sum lengths.now < 2 ^ 56 }
    ensures { result ≡ sectors_needed lengths.now }
{
    let mut large = 0;
    let mut minis = 0;
    for len in lengths {
        large += large_sectors(*len);
        minis += mini_sectors(*len);
    }
    let stored = units_for(SECTOR_LEN as u64, MINI_SECTOR_LEN as u64 * minis);
    let table = units_for(128, minis);
    let directory = units_for(4, lengths.len() as u64 + 1);
    let sectors = large + stored + table + directory;
    sectors + units_for(127, sectors)
}
