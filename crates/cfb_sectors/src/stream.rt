// Streams: the sectors of a chain joined, and cut to the stream's size.
ghost use Rattle.std.specs.Prelude.{◌≡◌, ℕ, ◌+◌, ◌*◌, ◌<◌, ◌≤◌, min, length, take, slice_index, IfOk};
ghost use Rattle.std.specs.List.{flat_map};
ghost use Rattle.cfb_sectors.specs.Header.{sector_len, sector_bytes};
ghost use Rattle.cfb_sectors.specs.Chain.{AreSectorsOf};

use crate::opening::SECTOR_LEN;
use doc_bits::Memory;
use std::alloc::Global;

/// The sectors of a chain joined and cut to `size`. A sector has `unit` bytes, and sector 0 is
/// at `base`.
pub fn join(
    alloc: Global,
    bytes: &[u8],
    base: usize,
    unit: usize,
    chain: &[u32],
    size: usize,
) -> Result<Vec<u8>, Memory>
    requires inside { (i : ℕ) → i < length chain.now → base + slice_index chain.now i * unit + unit ≤ length bytes.now }
    ensures joined { IfOk result (λ joined.
        joined.items ≡ take size (flat_map (sector_bytes base unit bytes.now) chain.now)) }
    ensures len { IfOk result (λ joined. length joined.items ≡ min size (length chain.now * unit)) }
{
    let mut joined = Vec::with_capacity(alloc, size)?;
    let mut left = size;
    for sector in chain {
        let from = base + *sector as usize * unit;
        let part = left.min(unit);
        joined.extend_from_slice(&bytes[from..from + part])?;
        left -= part;
    }
    Ok(joined)
}

/// The bytes of these sectors in a row.
pub fn read_sectors(alloc: Global, file: &[u8], sectors: &[u32]) -> Result<Vec<u8>, Memory>
    requires { AreSectorsOf file.now sectors.now }
    ensures { IfOk result (λ bytes. bytes.items ≡ flat_map (sector_bytes sector_len sector_len file.now) sectors.now) }
{
    let size = sectors.len() * SECTOR_LEN;
    let bytes = join(alloc, file, SECTOR_LEN, SECTOR_LEN, sectors, size)?;
    Ok(bytes)
}
