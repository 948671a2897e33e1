// Whole sectors, and tables of sectors that are in a row.
ghost use Rattle.std.specs.Prelude.{◌≡◌, ◌++◌, ◌+◌, ◌-◌, ◌*◌, ◌^◌};
ghost use Rattle.std.specs.Prelude.{◌<◌, ◌≤◌, OnOk, length, replicate, sum};
ghost use Rattle.std.specs.List.{flat_map, range_with_len};
ghost use Rattle.doc_bits.specs.Number.{number_bytes};
ghost use Rattle.cfb_layout.specs.Sectors.{units_for, padded_to_unit, chain_entries, chains_from};
ghost use Rattle.cfb_sectors.specs.Header.{sector_len};

use cfb_sectors::{ENDOFCHAIN, SECTOR_LEN};
use doc_bits::{Bytes, Memory};

/// The entries of a FAT or a mini FAT in a sector.
pub const TABLE_ENTRIES: usize = 128;

/// FREESECT.
pub const FREESECT: u32 = 0xFFFF_FFFF;

/// FATSECT.
pub const FATSECT: u32 = 0xFFFF_FFFD;

/// How many parts of `unit` hold so much.
pub(crate) fn units_for(unit: u64, size: u64) -> u64
    requires some { 0 < unit }
    requires room { size + unit ≤ 2 ^ 63 }
    ensures { result ≡ units_for unit size }
{
    (size + (unit - 1)) / unit
}

/// What is missing of whole parts of `unit`.
pub(crate) fn rest_of(unit: usize, len: usize) -> usize
    requires some { 0 < unit }
    requires small { unit ≤ sector_len }
    requires room { len < 2 ^ 63 }
    ensures is { result ≡ units_for unit len * unit - len }
    ensures less { result < unit }
{
    (len + (unit - 1)) / unit * unit - len
}

/// Appends zeros, a sector at most.
pub(crate) fn push_zeros(out: &mut Bytes, count: usize) -> Result<(), Memory>
    requires { count ≤ sector_len }
    ensures { OnOk result (out.new ≡ out.old ++ replicate count 0) }
{
    let zeros = [0u8; SECTOR_LEN];
    out.push_all(&zeros[..count])?;
    Ok(())
}

/// Appends bytes, filled up with zeros to whole parts of `unit`.
pub(crate) fn push_padded(out: &mut Bytes, bytes: &[u8], unit: usize) -> Result<(), Memory>
    requires some { 0 < unit }
    requires small { unit ≤ sector_len }
    ensures { OnOk result (out.new ≡ out.old ++ padded_to_unit unit 0 bytes.now) }
{
    out.push_all(bytes)?;
    push_zeros(out, rest_of(unit, bytes.len()))?;
    Ok(())
}

/// Appends numbers that follow one another.
pub fn push_row(out: &mut Bytes, from: u32, count: u32) -> Result<(), Memory>
    requires { from + count < 2 ^ 32 }
    ensures { OnOk result (out.new ≡ out.old ++ flat_map (number_bytes 4) (range_with_len from count)) }
{
    for number in from..from + count {
        out.push32(number)?;
    }
    Ok(())
}

/// Appends a number so many times.
pub(crate) fn push_repeated(out: &mut Bytes, number: u32, count: usize) -> Result<(), Memory>
    ensures { OnOk result (out.new ≡ out.old ++ flat_map (number_bytes 4) (replicate count number)) }
{
    for _turn in 0..count {
        out.push32(number)?;
    }
    Ok(())
}

/// Appends the entries of a chain of sectors that are in a row.
fn push_chain(out: &mut Bytes, start: u32, count: u32) -> Result<(), Memory>
    requires { start + count < 2 ^ 32 }
    ensures { OnOk result (out.new ≡ out.old ++ flat_map (number_bytes 4) (chain_entries start count)) }
{
    if count == 0 {
        return Ok(());
    }
    push_row(out, start + 1, count - 1)?;
    out.push32(ENDOFCHAIN)?;
    Ok(())
}

/// Appends the entries of such chains, one after another, from sector 0 on.
pub(crate) fn push_chains(out: &mut Bytes, counts: &[u32]) -> Result<(), Memory>
    requires { sum counts.now < 2 ^ 32 }
    ensures { OnOk result (out.new ≡ out.old ++ flat_map (number_bytes 4) (chains_from 0 counts.now)) }
{
    let mut start = 0;
    for count in counts {
        push_chain(out, start, *count)?;
        start += *count;
    }
    Ok(())
}
