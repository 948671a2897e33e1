// Bytes of a stream that are put at their places in the file.
ghost use Rattle.std.specs.Prelude.{◌≡◌, ◌+◌, ◌^◌, ◌<◌, IfOk, length};
ghost use Rattle.file_mends.specs.Rewritten.{place_of_byte, rewritten, with_byte};

use cfb_sectors::SECTOR_LEN;
use doc_bits::Memory;
use std::alloc::Global;

/// A copy of a file in which these bytes of a stream, from a byte of it on, are at their places.
pub(crate) fn rewritten(
    alloc: Global,
    file: &[u8],
    sectors: &[u32],
    from: usize,
    bytes: &[u8],
) -> Result<Vec<u8>, Memory>
    requires { from + length bytes.now < 2 ^ 64 }
    ensures { IfOk result (λ copy. copy.items ≡ rewritten sectors.now from bytes.now file.now) }
{
    let mut copy = Vec::from_slice(alloc, file)?;
    for k in 0..bytes.len() {
        put_byte(&mut copy, sectors, from + k, bytes[k]);
    }
    Ok(copy)
}

/// Puts byte `x` of a stream at its place, where the file has it.
pub(crate) fn put_byte(file: &mut [u8], sectors: &[u32], x: usize, byte: u8)
    ensures { file.new ≡ with_byte file.old (place_of_byte sectors.now x) byte }
{
    if let Some(sector) = sectors.get(x / SECTOR_LEN) {
        let place = (*sector as usize + 1) * SECTOR_LEN + x % SECTOR_LEN;
        if place < file.len() {
            file[place] = byte;
        }
    }
}
