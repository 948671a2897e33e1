// What the stream of an entry has.
ghost use Rattle.std.specs.Prelude.{◌≡◌, ◌+◌, ◌≤◌, ◌<◌, ◌^◌, length};
ghost use Rattle.cfb_sectors.specs.Chain.{AreSectorsOf};
ghost use Rattle.cfb_sectors.specs.Header.{sector_len};
ghost use Rattle.cfb_directory.specs.Reach.{entry_count};
ghost use Rattle.cfb_directory.specs.StreamEntries.{IsStreamEntry, stream_head};
ghost use Rattle.cfb_directory.specs.Entries.{IsBody};

use crate::directory::{ENTRY_SIZE, ENTRY_START, entry_place};
use cfb_sectors::{CUTOFF, Claim, MINI_SECTOR_LEN, SECTOR_LEN};
use doc_bits::get32;

/// What the stream of an entry has: nothing, a chain of mini sectors, or a chain of sectors of its own.
#[derive(Drop)]
pub enum Body {
    Empty,
    Short(Claim),
    Long(Claim),
}

/// What the stream of an entry has.
pub(crate) fn body_of(file: &[u8], directory: &[u32], entry: u32) -> Body
    requires sectors { AreSectorsOf file.now directory.now }
    requires there { entry < entry_count directory.now }
    requires is_entry { IsStreamEntry file.now directory.now entry }
    ensures { IsBody file.now directory.now entry result }
{
    let at = entry_place(file, directory, entry as usize);
    let size = get32(file, at + ENTRY_SIZE);
    if size == 0 {
        Body::Empty
    } else if size < CUTOFF {
        Body::Short(stream_claim(file, at, MINI_SECTOR_LEN))
    } else {
        Body::Long(stream_claim(file, at, SECTOR_LEN))
    }
}

/// The claim of the stream whose entry is at an offset, in sectors of so many bytes.
pub fn stream_claim(file: &[u8], at: usize, unit: usize) -> Claim
    requires short { length file.now < 2 ^ 32 }
    requires inside { at + 128 ≤ length file.now }
    requires few { unit ≤ sector_len }
    ensures { result ≡ stream_head file.now unit at }
{
    Claim {
        field: (at + ENTRY_START) as u32,
        start: get32(file, at + ENTRY_START),
        unit: unit as u32,
        size: get32(file, at + ENTRY_SIZE),
    }
}
