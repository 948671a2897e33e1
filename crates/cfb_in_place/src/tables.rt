// The entries of the FAT and of the mini FAT after a save, and how many sectors are added.
ghost use Rattle.std.specs.Prelude.{ℕ, ◌≡◌, ◌+◌, ◌*◌, ◌^◌, ◌<◌, ◌≤◌, IfOk, List, length, slice_index};
ghost use Rattle.cfb_sectors.specs.Header.{sector_len, fat_sector_count, fat_sectors};
ghost use Rattle.cfb_sectors.specs.Chain.{AreSectorsOf};
ghost use Rattle.cfb_in_place.specs.Change.{fat_sectors_more, end_of};
ghost use Rattle.cfb_in_place.specs.Tables.{AreFreed};
ghost use Rattle.cfb_in_place.specs.Tables.{ChangesFat, CanChangeFat, AreOldEntries, IsEntryAfter};
ghost use Rattle.cfb_in_place.specs.Sources.{AreFatsAfter, AreMinisAfter};

use crate::added::Added;
use crate::chains::Chains;
use cfb_layout::FREESECT;
use cfb_sectors::{FAT_COUNT, FAT_SECTORS, TABLE_LEN, read_table};
use cfb_streams::Layout;
use doc_bits::{Memory, get32};
use std::alloc::Global;

/// Frees the entries of these sectors.
fn free_entries(entries: &mut [u32], freed: &[u32])
    requires { (i : ℕ) → i < length freed.now → slice_index freed.now i < length entries.old }
    ensures { AreFreed entries.old entries.new freed.now }
{
    for sector in freed {
        entries[*sector as usize] = FREESECT;
    }
}

/// The least number of FAT sectors more with which so many sectors, and these, have an entry.
pub(crate) fn more_fat_sectors(fat_count: u64, sectors: u64) -> u64
    requires few { fat_count < 2 ^ 32 }
    requires room { sectors < 2 ^ 32 }
    ensures { result ≡ fat_sectors_more fat_count sectors }
{
    let covered = 128 * fat_count;
    if sectors <= covered {
        return 0;
    }
    (sectors - covered + 126) / 127
}

/// The entries of the FAT after, one for each of `covered` sectors.
fn fat_after(
    alloc: Global,
    entries: &mut [u32],
    chains: &Chains<'_>,
    added: &Added,
    covered: u32,
) -> Result<Vec<u32>, Memory>
    requires { CanChangeFat entries.old chains.now added.now covered }
    ensures len { IfOk result (λ fat. length fat.items ≡ covered) }
    ensures entries { IfOk result (λ fat. ChangesFat
        (λ s. slice_index entries.old s) (λ s. slice_index fat.items s) chains.now added.now covered) }
{
    change_old(entries, chains, added);
    let mut fat = Vec::with_capacity(alloc, covered as usize)?;
    for sector in 0..covered {
        fat.push(entry_after(entries, added, sector))?;
    }
    Ok(fat)
}

/// Frees what is left, and joins the added sectors to the chain that grows.
fn change_old(entries: &mut [u32], chains: &Chains<'_>, added: &Added)
    requires { CanChangeFat entries.old chains.now added.now (end_of added.now) }
    ensures { AreOldEntries entries.old entries.new chains.now added.now }
{
    free_entries(entries, chains.freed);
    if added.grown > 0 {
        let last = chains.grown[chains.grown.len() - 1];
        entries[last as usize] = added.from;
    }
}

/// The entry of a sector after, where those that are there have changed.
fn entry_after(entries: &[u32], added: &Added, sector: u32) -> u32
    requires { added.now.from ≤ length entries.now }
    ensures { IsEntryAfter entries.now added.now sector result }
{
    if sector < added.from {
        entries[sector as usize]
    } else {
        added.entry(sector)
    }
}

/// The numbers of the FAT sectors that are there.
pub(crate) fn old_fats(alloc: Global, old: &[u8]) -> Result<Vec<u32>, Memory>
    requires header { sector_len ≤ length old.now }
    requires few { fat_sector_count old.now ≤ 109 }
    ensures { IfOk result (λ sectors. sectors.items ≡ fat_sectors old.now) }
{
    let count = get32(old, FAT_COUNT) as usize;
    let mut sectors = Vec::with_capacity(alloc, count)?;
    for k in 0..count {
        sectors.push(get32(old, FAT_SECTORS + 4 * k))?;
    }
    Ok(sectors)
}

/// The entries of the FAT after.
pub(crate) fn fat_entries(
    alloc: Global,
    old: &[u8],
    chains: &Chains<'_>,
    added: &Added,
) -> Result<Vec<u32>, Memory>
    requires header { sector_len ≤ length old.now }
    requires few { fat_sector_count old.now + added.now.fat ≤ 109 }
    requires inside { AreSectorsOf old.now (fat_sectors old.now) }
    requires can { (entries : List ℕ) → length entries ≡ 128 * fat_sector_count old.now
        → CanChangeFat entries chains.now added.now (128 * (fat_sector_count old.now + added.now.fat)) }
    ensures { IfOk result (λ fat. AreFatsAfter old.now chains.now added.now fat.items) }
{
    let sectors = old_fats(alloc, old)?;
    let mut entries = read_table(alloc, old, &sectors)?;
    let covered = TABLE_LEN as u32 * (get32(old, FAT_COUNT) + added.fat);
    let fat = fat_after(alloc, &mut entries, chains, added, covered)?;
    Ok(fat)
}

/// The entries of the mini FAT after.
pub(crate) fn mini_entries(
    alloc: Global,
    old: &[u8],
    layout: &Layout<'_>,
    chains: &Chains<'_>,
) -> Result<Vec<u32>, Memory>
    requires inside { AreSectorsOf old.now layout.now.parts.mini_fat }
    requires freed { (i : ℕ) → i < length chains.now.freed_mini
        → slice_index chains.now.freed_mini i < 128 * length layout.now.parts.mini_fat }
    ensures { IfOk result (λ mini.
        AreMinisAfter old.now layout.now.parts.mini_fat chains.now.freed_mini mini.items) }
{
    let mut entries = read_table(alloc, old, layout.mini_fat())?;
    free_entries(&mut entries, &chains.freed_mini);
    Ok(entries)
}
