// The header of the file after.
ghost use Rattle.std.specs.Prelude.{◌≡◌, ◌++◌, ◌+◌, ◌<◌, ◌≤◌, OnOk, length};
ghost use Rattle.cfb_sectors.specs.Header.{sector_len, fat_sector_count};
ghost use Rattle.cfb_in_place.specs.Sources.{header_after};

use crate::added::Added;
use cfb_layout::push_row;
use cfb_sectors::{FAT_COUNT, FAT_SECTORS, SECTOR_LEN};
use doc_bits::{Bytes, Memory, get32};

/// Appends the header, in which the added FAT sectors are behind the others.
pub(crate) fn push_header(out: &mut Bytes, old: &[u8], added: &Added) -> Result<(), Memory>
    requires header { sector_len ≤ length old.now }
    requires few { fat_sector_count old.now + added.now.fat ≤ 109 }
    ensures { OnOk result (out.new ≡ out.old ++ header_after old.now added.now) }
{
    let fats = get32(old, FAT_COUNT);
    let list = FAT_SECTORS + 4 * fats as usize;
    let rest = FAT_SECTORS + 4 * (fats + added.fat) as usize;
    out.push_all(&old[..FAT_COUNT])?;
    out.push32(fats + added.fat)?;
    out.push_all(&old[FAT_COUNT + 4..list])?;
    push_row(out, added.fat_from(), added.fat)?;
    out.push_all(&old[rest..SECTOR_LEN])?;
    Ok(())
}
