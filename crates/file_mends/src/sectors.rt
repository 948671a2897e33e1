// A compound file whose last sector is cut, with zeros behind it.
ghost use Rattle.std.specs.Prelude.{◌≡◌, ◌↔◌, ◌++◌, ◌+◌, ◌<◌, ◌≤◌, IsTrue, IfOk, length};
ghost use Rattle.doc_bits.specs.Number.{zeros};
ghost use Rattle.file_mends.specs.Mends.{bytes_read};
ghost use Rattle.file_mends.specs.Sectors.{FillsSector, IsCutFile};

use crate::mended_file::MendedFile;
use crate::mends::FileMend;
use cfb_sectors::{MAX_LEN, SECTOR_LEN, SIGNATURE};
use doc_bits::Memory;
use std::alloc::Global;

/// The header and one sector: a file with less than one byte more has no second sector.
const TWO_SECTORS: usize = 1_024;

/// What is read in place of a file: where its last sector is cut a copy with zeros behind it, else the file.
pub fn fill_sector(alloc: Global, file: &[u8]) -> Result<MendedFile, Memory>
    ensures { IfOk result (λ made. FillsSector file.now made.mends (bytes_read file.now made)) }
{
    if !is_cut(file) {
        return Ok(MendedFile::unmended(alloc));
    }
    let missing = SECTOR_LEN - file.len() % SECTOR_LEN;
    let copy = with_zeros(alloc, file, missing)?;
    MendedFile::with_mend(alloc, copy, FileMend::LastSectorFilled(missing))
}

/// Whether the last sector of a compound file is cut.
fn is_cut(file: &[u8]) -> bool
    ensures { IsTrue result ↔ IsCutFile file.now }
{
    let len = file.len();
    if len % SECTOR_LEN == 0 || len <= TWO_SECTORS || len >= MAX_LEN {
        return false;
    }
    &file[..8] == SIGNATURE.as_slice()
}

/// A copy of a file with so many zeros behind it.
fn with_zeros(alloc: Global, file: &[u8], count: usize) -> Result<Vec<u8>, Memory>
    requires { length file.now + count ≤ 7143936 }
    ensures { IfOk result (λ copy. copy.items ≡ file.now ++ zeros count) }
{
    let mut copy = Vec::with_capacity(alloc, file.len() + count)?;
    copy.extend_from_slice(file)?;
    for _turn in 0..count {
        copy.push(0)?;
    }
    Ok(copy)
}
