// A save in a container's own sectors: the file after is written sector by sector.
ghost use Rattle.std.specs.Prelude.{◌≡◌, ◌++◌, ◌+◌, ◌*◌, ◌<◌, ◌≤◌, OnOk, IfOk, MatchResult, length};
ghost use Rattle.doc_bits.specs.Rules.{Hold};
ghost use Rattle.cfb_sectors.specs.Header.{sector_len, fat_sector_count, sector_count};
ghost use Rattle.cfb_streams.specs.Layout.{IsSoundLayout};
ghost use Rattle.cfb_streams.specs.Container.{container_rules, HasContents};
ghost use Rattle.cfb_in_place.specs.Change.{added_sectors};
ghost use Rattle.cfb_in_place.specs.Appended.{IsSavedBehind};
ghost use Rattle.cfb_in_place.specs.Save.{CanSave, FitsAfter, IsReady, IsSaveFault};
ghost use Rattle.cfb_in_place.specs.Sources.{old_sector, part_sector_bytes, HasPart, HasAllParts, written_sectors};
ghost use Rattle.cfb_in_place.specs.Contract.{CanBePutInPlace, IsSavedInPlace, IsInPlaceFault};

use crate::added::Added;
use crate::chains::{Chains, find_in};
use crate::change::Change;
use crate::header::push_header;
use crate::roles::{Part, Role};
use crate::sectors::{push_directory, push_entries};
use crate::sources::{Sources, grown_len, sources_of};
use cfb_layout::{LayoutFault, MAX_SECTORS};
use cfb_sectors::SECTOR_LEN;
use cfb_streams::{Container, Layout, layout_of};
use doc_bits::{Bytes, Memory};
use std::alloc::Global;

/// The container in whose own sectors one stream grew, and another one was written anew.
pub fn appended(
    alloc: Global,
    container: &Container,
    old: &[u8],
    change: &Change,
) -> Result<Bytes, LayoutFault>
    requires rules { Hold (container_rules old.now) }
    requires contents { HasContents old.now container.now }
    requires change { CanBePutInPlace container.now change.now.change change.now.name }
    ensures { MatchResult result
        (λ new. IsSavedInPlace old.now new container.now change.now.change change.now.name)
        (IsInPlaceFault old.now container.now change.now.change change.now.name) }
{
    let layout = layout_of(alloc, old)?;
    let saved = appended_in(alloc, container, old, change, &layout);
    drop(layout);
    saved
}

/// The container with the change, by the layout of the file before.
fn appended_in(
    alloc: Global,
    container: &Container,
    old: &[u8],
    change: &Change,
    layout: &Layout<'_>,
) -> Result<Bytes, LayoutFault>
    requires rules { Hold (container_rules old.now) }
    requires contents { HasContents old.now container.now }
    requires change { CanBePutInPlace container.now change.now.change change.now.name }
    requires places { layout.now.file ≡ old.now }
    requires is_layout { IsSoundLayout layout.now }
    ensures { MatchResult result
        (λ new. IsSavedInPlace old.now new container.now change.now.change change.now.name)
        (IsInPlaceFault old.now container.now change.now.change change.now.name) }
{
    let chains = find_in(alloc, container, old, change.name.as_slice(), layout)?;
    let saved = saved_by(alloc, old, layout, &chains, change);
    drop(chains);
    saved
}

/// The container with the change, by the old chains of the two streams.
fn saved_by(
    alloc: Global,
    old: &[u8],
    layout: &Layout<'_>,
    chains: &Chains<'_>,
    change: &Change,
) -> Result<Bytes, LayoutFault>
    requires { CanSave old.now layout.now.parts chains.now change.now.change }
    ensures { MatchResult result
        (λ new. FitsAfter old.now (added_sectors old.now chains.now change.now.change)
        × IsSavedBehind old.now new layout.now.parts chains.now
        (added_sectors old.now chains.now change.now.change) change.now.change)
        (IsSaveFault old.now chains.now change.now.change) }
{
    let grown = grown_len(chains, change);
    let added = Added::new(
        old,
        chains.grown.len(),
        grown,
        change.table.as_slice().len(),
    );
    let sectors = added.sectors_after(old);
    if MAX_SECTORS < sectors {
        return Err(LayoutFault::TooLarge { sectors });
    }
    let file = file_after(alloc, old, layout, chains, change, &added)?;
    Ok(file)
}

/// The file after, which is no longer than a file may be.
fn file_after(
    alloc: Global,
    old: &[u8],
    layout: &Layout<'_>,
    chains: &Chains<'_>,
    change: &Change,
    added: &Added,
) -> Result<Bytes, Memory>
    requires { IsReady old.now layout.now.parts chains.now change.now.change added.now }
    ensures { IfOk result (λ new.
        IsSavedBehind old.now new layout.now.parts chains.now added.now change.now.change) }
{
    let sources = sources_of(alloc, old, layout, chains, change, added)?;
    let file = write(alloc, old, &sources, added);
    drop(sources);
    file
}

/// Writes the file after, sector by sector.
fn write(alloc: Global, old: &[u8], sources: &Sources, added: &Added) -> Result<Bytes, Memory>
    requires header { sector_len ≤ length old.now }
    requires few { fat_sector_count old.now + added.now.fat ≤ 109 }
    requires parts { HasAllParts old.now sources.now }
    ensures { IfOk result (λ file. file ≡ written_sectors old.now added.now sources.now) }
{
    let mut out = Bytes::new(alloc);
    push_header(&mut out, old, added)?;
    for sector in 0..sources.roles.len() {
        push_sector(&mut out, old, sources, sector, sources.roles[sector])?;
    }
    Ok(out)
}

/// Appends a sector that has this role.
fn push_sector(
    out: &mut Bytes,
    old: &[u8],
    sources: &Sources,
    sector: usize,
    role: Role,
) -> Result<(), Memory>
    requires { HasPart old.now sources.now sector role.index role.part }
    ensures { OnOk result (out.new ≡ out.old ++ part_sector_bytes old.now sources.now sector role.index role.part) }
{
    let index = role.index;
    match role.part {
        Part::Fat => push_entries(out, sources.fat_part(index)),
        Part::MiniFat => push_entries(out, sources.mini_part(index)),
        Part::Directory => {
            let first = 4 * index;
            let bytes = sector_of(old, sector);
            push_directory(out, bytes, first, &sources.grown_head, &sources.table_head)
        }
        Part::Grown => out.push_all(sources.grown_part(index)),
        Part::Fresh => out.push_all(sources.table_part(index)),
        Part::Other => out.push_all(sector_of(old, sector)),
    }
}

/// A sector of the file before.
fn sector_of(old: &[u8], sector: usize) -> &[u8]
    requires { sector < sector_count old.now }
    ensures is { result.now ≡ old_sector old.now sector }
    ensures len { length result.now ≡ sector_len }
{
    let at = (sector + 1) * SECTOR_LEN;
    &old[at..at + SECTOR_LEN]
}
