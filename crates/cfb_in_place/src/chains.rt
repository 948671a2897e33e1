// The two streams of the file before: the one that grows, and what the other one leaves.
ghost use Rattle.std.specs.Prelude.{ℕ, ◌≡◌, ◌<◌, [], IfOk, List, Some, length, option_map, slice_get, slice_index};
ghost use Rattle.std.specs.Prelude.{unwrap_or};
ghost use Rattle.doc_bits.specs.Rules.{Hold};
ghost use Rattle.cfb_sectors.specs.Opening.{HasRightLength};
ghost use Rattle.cfb_directory.specs.StreamEntries.{IsStreamEntry};
ghost use Rattle.cfb_streams.specs.FoundParts.{mini_place};
ghost use Rattle.cfb_streams.specs.Layout.{IsSoundLayout};
ghost use Rattle.cfb_streams.specs.Container.{container_rules, HasContents};
ghost use Rattle.cfb_in_place.specs.Save.{IsMiniChain};
ghost use Rattle.cfb_in_place.specs.Contract.{IsNamed, AreTwoStreams, AreNamedChains};

use cfb_directory::{ENTRY_SIZE, entry_place, stream_claim};
use cfb_sectors::{CUTOFF, Chain, MINI_SECTOR_LEN, TABLE_LEN, Table};
use cfb_streams::{Container, Layout, equal_names, word_document};
use doc_bits::{Memory, get32};
use std::alloc::Global;
use std::marker::Model;

/// The directory's entries of the two streams, the bytes and the sectors of the one that grows, and the sectors and
/// mini sectors that the other leaves.
#[derive(Drop)]
pub(crate) struct Chains<'a> {
    pub(crate) grown_entry: u32,
    pub(crate) table_entry: u32,
    pub(crate) bytes: &'a [u8],
    pub(crate) grown: &'a [u32],
    pub(crate) freed: &'a [u32],
    pub(crate) freed_mini: Vec<u32>,
}

impl<'a> Model for Chains<'a> {
    ghost use Rattle.cfb_in_place.specs.Change.{OldChains};

    ghost Value = { OldChains };

    ghost view = { λ c. record {
      grown_entry = c.grown_entry;
      table_entry = c.table_entry;
      bytes = c.bytes.now;
      grown = c.grown.now;
      freed = c.freed.now;
      freed_mini = c.freed_mini.items;
    } };
}

/// The two streams of the file: that with the FIB, and that with the name.
pub(crate) fn find_in<'a>(
    alloc: Global,
    container: &'a Container,
    file: &[u8],
    name: &[u16],
    layout: &Layout<'_>,
) -> Result<Chains<'a>, Memory>
    requires rules { Hold (container_rules file.now) }
    requires contents { HasContents file.now container.now }
    requires streams { AreTwoStreams container.now name.now }
    requires places { layout.now.file ≡ file.now }
    requires is_layout { IsSoundLayout layout.now }
    ensures { IfOk result (AreNamedChains file.now container.now name.now) }
{
    let grown = index_of(container, word_document());
    let table = index_of(container, name);
    let grown_entry = entry_at(layout, grown);
    let table_entry = entry_at(layout, table);
    let freed_mini = mini_chain(alloc, file, layout, table_entry)?;
    Ok(Chains {
        grown_entry,
        table_entry,
        bytes: container.bytes(grown),
        grown: sectors_of(container, grown),
        freed: sectors_of(container, table),
        freed_mini,
    })
}

/// The entry of a stream.
fn entry_at(layout: &Layout<'_>, i: usize) -> u32
    requires { i < length layout.now.streams }
    ensures { result ≡ slice_index layout.now.streams i }
{
    layout.streams()[i]
}

/// The place of the stream with the name in the list.
fn index_of(container: &Container, name: &[u16]) -> usize
    requires { (i : ℕ) × IsNamed container.now i name.now }
    ensures named { IsNamed container.now result name.now }
    ensures inside { result < length container.now.streams }
{
    for i in 0..container.count() {
        if equal_names(container.name(i), name) {
            return i;
        }
    }
    unreachable!()
}

/// The sectors of a stream, none where it has none of its own.
fn sectors_of(container: &Container, i: usize) -> &[u32]
    requires { i < length container.now.streams }
    ensures { option_map (λ s. unwrap_or s.chain []) (slice_get container.now.streams i) ≡ Some result.now }
{
    match container.chain(i) {
        Some(sectors) => sectors,
        None => &[],
    }
}

/// The mini sectors of a stream, none where it is empty or has sectors of its own.
fn mini_chain(
    alloc: Global,
    file: &[u8],
    layout: &Layout<'_>,
    entry: u32,
) -> Result<Vec<u32>, Memory>
    requires whole { HasRightLength file.now }
    requires places { layout.now.file ≡ file.now }
    requires is_entry { IsStreamEntry file.now layout.now.parts.directory entry }
    requires there { (sectors : List ℕ) × IsMiniChain file.now layout.now.parts entry sectors }
    ensures { IfOk result (λ sectors. IsMiniChain file.now layout.now.parts entry sectors.items) }
{
    let at = entry_place(file, layout.directory(), entry as usize);
    let size = get32(file, at + ENTRY_SIZE);
    if size == 0 || size >= CUTOFF {
        return Ok(Vec::new(alloc));
    }
    let mut mini = read_mini(alloc, file, layout)?;
    match mini.find(alloc, &stream_claim(file, at, MINI_SECTOR_LEN))? {
        Chain::Found(path) => Ok(path),
        Chain::Breaks(_) => unreachable!(),
    }
}

/// The mini FAT.
fn read_mini<'a>(alloc: Global, file: &'a [u8], layout: &Layout<'_>) -> Result<Table<'a>, Memory>
    requires whole { HasRightLength file.now }
    requires places { layout.now.file ≡ file.now }
    ensures { IfOk result (λ table.
        table ≡ mini_place file.now layout.now.parts.directory layout.now.parts.mini_fat) }
{
    let directory = layout.directory();
    let mini_fat = layout.mini_fat();
    let mut sectors = Vec::with_capacity(alloc, mini_fat.len())?;
    sectors.extend_from_slice(mini_fat)?;
    let size = get32(file, entry_place(file, directory, 0) + ENTRY_SIZE) as usize;
    let valid = (TABLE_LEN * mini_fat.len()).min(size.div_ceil(MINI_SECTOR_LEN));
    let table = Table::read(alloc, file, sectors, valid)?;
    Ok(table)
}
