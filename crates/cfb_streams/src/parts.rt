// Rules 6, 11 and 12: the chains of the directory, of the mini FAT and of the mini stream.
ghost use Rattle.std.specs.Prelude.{◌≡◌, ◌+◌, ◌*◌, ◌^◌, ◌<◌, ◌≤◌, ◌↔◌, IsTrue, IfOk, length};
ghost use Rattle.doc_bits.specs.Number.{u32_at};
ghost use Rattle.cfb_sectors.specs.Chain.{AreSectorsOf};
ghost use Rattle.cfb_directory.specs.Reach.{IsLongDirectory};
ghost use Rattle.cfb_streams.specs.StreamRules.{mini_table_of};
ghost use Rattle.cfb_sectors.specs.Tables.{fat_place};
ghost use Rattle.cfb_sectors.specs.Header.{sector_len};
ghost use Rattle.cfb_streams.specs.FoundParts.{IsFoundDirectory, IsFoundMiniFat, IsFoundMiniStream};

use cfb_directory::{ENTRY_SIZE, entry_place, stream_claim};
use cfb_sectors::{
    Chain, Claim, DIRECTORY_START, MINI_FAT_COUNT, MINI_FAT_START, MINI_SECTOR_LEN, SECTOR_LEN,
    TABLE_LEN, Table,
};
use doc_bits::{Memory, get32};
use std::alloc::Global;

/// The most sectors of a directory.
const MAX_DIRECTORY: usize = 256;

/// The claim of a chain whose start is in the header.
fn header_claim(file: &[u8], field: usize) -> Claim
    requires header { sector_len ≤ length file.now }
    requires inside { field + 4 ≤ sector_len }
    ensures { result ≡ record { field = field; start = u32_at file.now field; unit = sector_len; size = 0 } }
{
    Claim {
        field: field as u32,
        start: get32(file, field),
        unit: SECTOR_LEN as u32,
        size: 0,
    }
}

/// Whether the path from the directory's start has more than 256 sectors.
fn is_long_directory(alloc: Global, file: &[u8], fat: &mut Table<'_>) -> Result<bool, Memory>
    requires header { sector_len ≤ length file.now }
    requires is_fat { fat.old ≡ fat_place file.now }
    ensures long { IfOk result (λ long. IsTrue long ↔ IsLongDirectory file.now 48) }
    ensures kept { fat.new ≡ fat.old }
{
    let start = get32(file, DIRECTORY_START);
    if start as usize >= fat.valid() {
        return Ok(false);
    }
    let path = fat.path(alloc, start)?;
    Ok(path.len() > MAX_DIRECTORY)
}

/// The directory's sectors, or the place at which rule 6 is broken.
pub(crate) fn find_directory(
    alloc: Global,
    file: &[u8],
    fat: &mut Table<'_>,
) -> Result<Chain, Memory>
    requires header { sector_len ≤ length file.now }
    requires is_fat { fat.old ≡ fat_place file.now }
    ensures found { IfOk result (IsFoundDirectory file.now) }
    ensures kept { fat.new ≡ fat.old }
{
    let long = is_long_directory(alloc, file, fat)?;
    if long {
        return Ok(Chain::Breaks(DIRECTORY_START as u32));
    }
    let claim = header_claim(file, DIRECTORY_START);
    let found = fat.find(alloc, &claim)?;
    Ok(found)
}

/// The sectors of the mini FAT, none where it has none, or the place at which rule 11 is broken.
pub(crate) fn find_mini_fat(
    alloc: Global,
    file: &[u8],
    fat: &mut Table<'_>,
) -> Result<Chain, Memory>
    requires header { sector_len ≤ length file.now }
    requires is_fat { fat.old ≡ fat_place file.now }
    ensures found { IfOk result (IsFoundMiniFat file.now) }
    ensures kept { fat.new ≡ fat.old }
{
    if get32(file, MINI_FAT_COUNT) == 0 {
        return Ok(Chain::Found(Vec::new(alloc)));
    }
    let claim = header_claim(file, MINI_FAT_START);
    let found = fat.find(alloc, &claim)?;
    Ok(found)
}

/// The sectors of the mini stream, none where it is empty, or the place at which rule 12 is broken.
pub(crate) fn find_mini_stream(
    alloc: Global,
    file: &[u8],
    directory: &[u32],
    fat: &mut Table<'_>,
) -> Result<Chain, Memory>
    requires sectors { AreSectorsOf file.now directory.now }
    requires there { 0 < length directory.now }
    requires is_fat { fat.old ≡ fat_place file.now }
    ensures found { IfOk result (IsFoundMiniStream file.now directory.now) }
    ensures kept { fat.new ≡ fat.old }
{
    let root = entry_place(file, directory, 0);
    let claim = stream_claim(file, root, SECTOR_LEN);
    if claim.size == 0 {
        return Ok(Chain::Found(Vec::new(alloc)));
    }
    let found = fat.find(alloc, &claim)?;
    Ok(found)
}

/// The number below which the mini sectors are valid: they have an entry in the mini FAT, and begin
/// before the end of the root's size.
pub(crate) fn mini_sectors(file: &[u8], directory: &[u32], mini_fat: &[u32]) -> usize
    requires sectors { AreSectorsOf file.now directory.now }
    requires there { 0 < length directory.now }
    requires few { length mini_fat.now < 2 ^ 32 }
    ensures { result ≡ (mini_table_of file.now directory.now mini_fat.now).valid }
{
    let size = get32(file, entry_place(file, directory, 0) + ENTRY_SIZE) as usize;
    (TABLE_LEN * mini_fat.len()).min(size.div_ceil(MINI_SECTOR_LEN))
}
