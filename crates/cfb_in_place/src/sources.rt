// Of what the sectors of the file after are made.
ghost use Rattle.std.specs.Prelude.{◌≡◌, ◌+◌, ◌-◌, ◌*◌, ◌^◌, ◌<◌, ◌≤◌, IfOk, length};
ghost use Rattle.cfb_sectors.specs.Chain.{AreSectorsOf};
ghost use Rattle.cfb_sectors.specs.Header.{sector_len};
ghost use Rattle.cfb_directory.specs.Directory.{entry_start};
ghost use Rattle.cfb_directory.specs.Reach.{entry_place as place_of, entry_count};
ghost use Rattle.cfb_layout.specs.Sectors.{units_for, padded_to_unit};
ghost use Rattle.cfb_in_place.specs.Change.{grown_bytes};
ghost use Rattle.cfb_in_place.specs.Appended.{joined};
ghost use Rattle.cfb_in_place.specs.Save.{IsReady};
ghost use Rattle.cfb_in_place.specs.Sources.{cut_at, grown_sectors, AreSources};

use crate::added::Added;
use crate::chains::Chains;
use crate::change::Change;
use crate::roles::{Role, roles_of};
use crate::sectors::{NewHead, push_rest};
use crate::tables::{fat_entries, mini_entries};
use cfb_directory::{ENTRY_START, entry_place};
use cfb_sectors::{SECTOR_LEN, TABLE_LEN, read_sectors};
use cfb_streams::Layout;
use doc_bits::{Bytes, Memory, get32, push_zeros};
use std::alloc::Global;
use std::marker::Model;

/// Whose each sector is, the entries of the tables, the bytes of the two streams, and their entries in the directory.
#[derive(Drop)]
pub(crate) struct Sources {
    pub(crate) roles: Vec<Role>,
    pub(crate) fat: Vec<u32>,
    pub(crate) mini: Vec<u32>,
    pub(crate) grown: Bytes,
    pub(crate) table: Bytes,
    pub(crate) grown_head: NewHead,
    pub(crate) table_head: NewHead,
}

impl Model for Sources {
    ghost use Rattle.cfb_in_place.specs.Sources.{Sources};

    ghost Value = { Sources };

    ghost view = { λ s. record {
      roles = s.roles.items;
      fat = s.fat.items;
      mini = s.mini.items;
      grown = s.grown;
      table = s.table;
      grown_head = s.grown_head;
      table_head = s.table_head;
    } };
}

impl Sources {
    /// The entries of a sector of the FAT.
    pub(crate) fn fat_part(&self, index: usize) -> &[u32]
        requires { 128 * index + 128 ≤ length self.now.fat }
        ensures { result.now ≡ cut_at self.now.fat 128 index }
    {
        &self.fat[TABLE_LEN * index..TABLE_LEN * index + TABLE_LEN]
    }

    /// The entries of a sector of the mini FAT.
    pub(crate) fn mini_part(&self, index: usize) -> &[u32]
        requires { 128 * index + 128 ≤ length self.now.mini }
        ensures { result.now ≡ cut_at self.now.mini 128 index }
    {
        &self.mini[TABLE_LEN * index..TABLE_LEN * index + TABLE_LEN]
    }

    /// The bytes of a sector of the stream that grows.
    pub(crate) fn grown_part(&self, index: usize) -> &[u8]
        requires { sector_len * index + sector_len ≤ length self.now.grown }
        ensures { result.now ≡ cut_at self.now.grown sector_len index }
    {
        &self.grown.as_slice()[SECTOR_LEN * index..SECTOR_LEN * index + SECTOR_LEN]
    }

    /// The bytes of a sector of the stream that is written anew.
    pub(crate) fn table_part(&self, index: usize) -> &[u8]
        requires { sector_len * index + sector_len ≤ length self.now.table }
        ensures { result.now ≡ cut_at self.now.table sector_len index }
    {
        &self.table.as_slice()[SECTOR_LEN * index..SECTOR_LEN * index + SECTOR_LEN]
    }
}

/// Those of a save.
pub(crate) fn sources_of(
    alloc: Global,
    old: &[u8],
    layout: &Layout<'_>,
    chains: &Chains<'_>,
    change: &Change,
    added: &Added,
) -> Result<Sources, Memory>
    requires { IsReady old.now layout.now.parts chains.now change.now.change added.now }
    ensures { IfOk result
        (AreSources old.now layout.now.parts chains.now added.now change.now.change) }
{
    let count = added.sectors_after(old) as usize;
    let roles = roles_of(alloc, old, layout, chains, added, count)?;
    let fat = fat_entries(alloc, old, chains, added)?;
    let mini = mini_entries(alloc, old, layout, chains)?;
    let grown = grown_after(alloc, old, chains, change, added)?;
    let table = table_after(alloc, change)?;
    Ok(Sources {
        roles,
        fat,
        mini,
        grown,
        table,
        grown_head: grown_head(old, layout, chains, grown_len(chains, change)),
        table_head: NewHead {
            entry: chains.table_entry as usize,
            start: added.fresh_from(),
            size: change.table.as_slice().len() as u32,
        },
    })
}

/// The bytes of the stream that grows.
pub(crate) fn grown_len(chains: &Chains<'_>, change: &Change) -> usize
    requires front { length change.now.change.fib ≤ length chains.now.bytes }
    requires short { length (grown_bytes change.now.change chains.now.bytes) < 2 ^ 31 }
    ensures { result ≡ length (grown_bytes change.now.change chains.now.bytes) }
{
    chains.bytes.len() + change.tail.as_slice().len()
}

/// The stream that grows, with what is behind it in its sectors.
fn grown_after(
    alloc: Global,
    old: &[u8],
    chains: &Chains<'_>,
    change: &Change,
    added: &Added,
) -> Result<Bytes, Memory>
    requires inside { AreSectorsOf old.now chains.now.grown }
    requires front { length change.now.change.fib ≤ length chains.now.bytes }
    requires within { length (grown_bytes change.now.change chains.now.bytes)
        ≤ length (joined old.now chains.now.grown) + sector_len * added.now.grown }
    requires room { length (joined old.now chains.now.grown) + sector_len * added.now.grown < 2 ^ 63 }
    ensures { IfOk result (λ bytes. bytes ≡ grown_sectors old.now chains.now added.now change.now.change) }
{
    let joined = read_sectors(alloc, old, chains.grown)?;
    let fib = change.fib.as_slice();
    let mut out = Bytes::new(alloc);
    out.push_all(fib)?;
    out.push_all(&chains.bytes[fib.len()..])?;
    out.push_all(change.tail.as_slice())?;
    push_rest(&mut out, &joined, SECTOR_LEN * added.grown as usize)?;
    Ok(out)
}

/// The stream that is written anew, filled up with zeros to whole sectors.
fn table_after(alloc: Global, change: &Change) -> Result<Bytes, Memory>
    requires { length change.now.change.table < 2 ^ 31 }
    ensures { IfOk result (λ bytes. bytes ≡ padded_to_unit sector_len 0 change.now.change.table) }
{
    let table = change.table.as_slice();
    let mut out = Bytes::new(alloc);
    out.push_all(table)?;
    push_zeros(&mut out, rest_of(table.len()))?;
    Ok(out)
}

/// What is missing of whole sectors.
fn rest_of(len: usize) -> usize
    requires { len < 2 ^ 31 }
    ensures { result ≡ units_for sector_len len * sector_len - len }
{
    (len + (SECTOR_LEN - 1)) / SECTOR_LEN * SECTOR_LEN - len
}

/// The entry of the stream that grows: its old start, and its new size.
fn grown_head(old: &[u8], layout: &Layout<'_>, chains: &Chains<'_>, size: usize) -> NewHead
    requires sectors { AreSectorsOf old.now layout.now.parts.directory }
    requires there { chains.now.grown_entry < entry_count layout.now.parts.directory }
    requires short { size < 2 ^ 32 }
    ensures { result ≡ record {
      entry = chains.now.grown_entry;
      start = entry_start old.now (place_of layout.now.parts.directory chains.now.grown_entry);
      size = size;
    } }
{
    let entry = chains.grown_entry as usize;
    let at = entry_place(old, layout.directory(), entry);
    NewHead {
        entry,
        start: get32(old, at + ENTRY_START),
        size: size as u32,
    }
}
