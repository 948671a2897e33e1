// The canonical container, written part by part.
ghost use Rattle.std.specs.Prelude.{◌≡◌, ◌++◌, ◌+◌, ◌*◌, ◌<◌, ◌^◌};
ghost use Rattle.std.specs.Prelude.{◌≤◌, OnOk, IfOk, MatchResult, length, sum};
ghost use Rattle.std.specs.List.{flat_map};
ghost use Rattle.cfb_layout.specs.Sectors.{padded_to_unit, table_bytes, chains_from};
ghost use Rattle.cfb_layout.specs.Counts.{Fits, mini_counts};
ghost use Rattle.cfb_layout.specs.Entries.{entry_bytes, unused_fields};
ghost use Rattle.cfb_layout.specs.Layout.{lengths_of, large_part, small_part, mini_stream, fat};
ghost use Rattle.cfb_layout.specs.Layout.{directory_entry, directory_bytes, header_bytes, compound_file};
ghost use Rattle.cfb_layout.specs.Faults.{IsLayoutFault};
ghost use Rattle.cfb_sectors.specs.Header.{sector_len};

use crate::LayoutFault;
use crate::entries::{EntryFields, push_entry};
use crate::fields::{Field, push_fields};
use crate::plan::{DIRECTORY, MINI_FAT, Plan};
use crate::sectors::{
    FATSECT, FREESECT, TABLE_ENTRIES, push_chains, push_padded, push_repeated, push_row,
    push_zeros, rest_of,
};
use crate::sizes::{CUTOFF, MAX_SECTORS, sectors_needed};
use crate::tree::NO_ENTRY;
use cfb_sectors::{ENDOFCHAIN, MINI_SECTOR_LEN, SECTOR_LEN, SIGNATURE};
use cfb_streams::Streams;
use doc_bits::{Bytes, Memory};
use std::alloc::Global;

/// The numbers of FAT sectors that the header has room for.
const HEADER_FATS: usize = 109;

/// `Root Entry`.
const ROOT_NAME: [u16; 10] = [0x52, 0x6F, 0x6F, 0x74, 0x20, 0x45, 0x6E, 0x74, 0x72, 0x79];

/// The CLSID of entries that have none.
const NO_CLSID: [u8; 16] = [0; 16];

/// The canonical container of these streams, with this CLSID of the root.
pub fn whole(alloc: Global, streams: &Streams, clsid: [u8; 16]) -> Result<Bytes, LayoutFault>
    requires { length streams.now ≤ 1023 }
    ensures { MatchResult result
        (λ file. Fits (lengths_of streams.now) × (file ≡ compound_file streams.now clsid))
        (IsLayoutFault (lengths_of streams.now)) }
{
    let lengths = lengths_of(alloc, streams)?;
    let sectors = sectors_needed(&lengths);
    if MAX_SECTORS < sectors {
        return Err(LayoutFault::TooLarge { sectors });
    }
    let plan = Plan::new(alloc, lengths)?;
    let file = write(alloc, streams, &plan, &clsid)?;
    Ok(file)
}

/// The lengths of streams.
fn lengths_of(alloc: Global, streams: &Streams) -> Result<Vec<u64>, Memory>
    ensures are { IfOk result (λ lengths. lengths.items ≡ lengths_of streams.now) }
    ensures few { IfOk result (λ lengths. sum lengths.items < 2 ^ 48) }
{
    let mut lengths = Vec::new(alloc);
    let count = streams.count();
    for i in 0..count {
        let bytes = streams.bytes(i);
        lengths.push(bytes.len() as u64)?;
    }
    Ok(lengths)
}

/// The container by its plan.
fn write(alloc: Global, streams: &Streams, plan: &Plan, clsid: &[u8; 16]) -> Result<Bytes, Memory>
    requires { plan.now ≡ lengths_of streams.now }
    ensures { IfOk result (λ file. file ≡ compound_file streams.now clsid.now) }
{
    let mut out = Bytes::new(alloc);
    push_header(&mut out, plan)?;
    push_large(&mut out, streams)?;
    push_mini_stream(&mut out, streams, plan)?;
    push_mini_fat(&mut out, plan)?;
    push_directory(&mut out, streams, plan, clsid)?;
    push_fat(&mut out, plan)?;
    Ok(out)
}

/// Appends the header.
fn push_header(out: &mut Bytes, plan: &Plan) -> Result<(), Memory>
    ensures { OnOk result (out.new ≡ out.old ++ header_bytes plan.now) }
{
    let count = plan.count();
    let sectors = plan.sectors();
    let zero = Field::Long(0);
    let fats = Field::Long(plan.fats());
    let directory = Field::Long(sectors.first_sector(count + DIRECTORY));
    let mini_fat = Field::Long(sectors.first_sector(count + MINI_FAT));
    let mini_fats = Field::Long(sectors.count(count + MINI_FAT));
    out.push_all(&SIGNATURE)?;
    push_fields(
        out,
        &[
            zero,
            zero,
            zero,
            zero,
            Field::Word(0x003E),
            Field::Word(3),
            Field::Word(0xFFFE),
            Field::Word(9),
            Field::Word(6),
            Field::Word(0),
            zero,
            zero,
            fats,
            directory,
            zero,
            Field::Long(CUTOFF as u32),
            mini_fat,
            mini_fats,
            Field::Long(ENDOFCHAIN),
            zero,
        ],
    )?;
    push_row(out, sectors.total(), plan.fats())?;
    push_repeated(out, FREESECT, HEADER_FATS - plan.fats() as usize)?;
    Ok(())
}

/// What of a stream is in sectors of its own.
fn large_part(bytes: &[u8]) -> &[u8]
    ensures { result.now ≡ large_part bytes.now }
{
    if (bytes.len() as u64) < CUTOFF {
        &bytes[..0]
    } else {
        bytes
    }
}

/// What of a stream is in mini sectors.
fn small_part(bytes: &[u8]) -> &[u8]
    ensures { result.now ≡ small_part bytes.now }
{
    if (bytes.len() as u64) < CUTOFF {
        bytes
    } else {
        &bytes[..0]
    }
}

/// Appends the streams that have sectors of their own.
fn push_large(out: &mut Bytes, streams: &Streams) -> Result<(), Memory>
    ensures { OnOk result (out.new ≡ out.old
        ++ flat_map (λ stream. padded_to_unit sector_len 0 (large_part stream.bytes)) streams.now) }
{
    for i in 0..streams.count() {
        let part = large_part(streams.bytes(i));
        push_padded(out, part, SECTOR_LEN)?;
    }
    Ok(())
}

/// Appends the mini stream.
fn push_mini_stream(out: &mut Bytes, streams: &Streams, plan: &Plan) -> Result<(), Memory>
    requires { plan.now ≡ lengths_of streams.now }
    ensures { OnOk result (out.new ≡ out.old ++ padded_to_unit sector_len 0 (mini_stream streams.now)) }
{
    for i in 0..streams.count() {
        let part = small_part(streams.bytes(i));
        push_padded(out, part, MINI_SECTOR_LEN)?;
    }
    let len = MINI_SECTOR_LEN * plan.minis().total() as usize;
    push_zeros(out, rest_of(SECTOR_LEN, len))?;
    Ok(())
}

/// Appends the mini FAT.
fn push_mini_fat(out: &mut Bytes, plan: &Plan) -> Result<(), Memory>
    ensures { OnOk result (out.new ≡ out.old ++ table_bytes (chains_from 0 (mini_counts plan.now))) }
{
    let minis = plan.minis();
    push_chains(out, minis.counts())?;
    push_repeated(
        out,
        FREESECT,
        rest_of(TABLE_ENTRIES, minis.total() as usize),
    )?;
    Ok(())
}

/// Appends the FAT.
fn push_fat(out: &mut Bytes, plan: &Plan) -> Result<(), Memory>
    ensures { OnOk result (out.new ≡ out.old ++ table_bytes (fat plan.now)) }
{
    let sectors = plan.sectors();
    let fats = plan.fats() as usize;
    push_chains(out, sectors.counts())?;
    push_repeated(out, FATSECT, fats)?;
    push_repeated(
        out,
        FREESECT,
        rest_of(TABLE_ENTRIES, sectors.total() as usize + fats),
    )?;
    Ok(())
}

/// Appends the directory.
fn push_directory(
    out: &mut Bytes,
    streams: &Streams,
    plan: &Plan,
    clsid: &[u8; 16],
) -> Result<(), Memory>
    requires { plan.now ≡ lengths_of streams.now }
    ensures { OnOk result (out.new ≡ out.old ++ directory_bytes streams.now clsid.now) }
{
    let sectors = (plan.count() + 4) / 4;
    for k in 0..4 * sectors {
        push_directory_entry(out, streams, plan, clsid, k)?;
    }
    Ok(())
}

/// Appends the k-th entry: the root, a stream, or one that is not used.
fn push_directory_entry(
    out: &mut Bytes,
    streams: &Streams,
    plan: &Plan,
    clsid: &[u8; 16],
    k: usize,
) -> Result<(), Memory>
    requires { plan.now ≡ lengths_of streams.now }
    ensures { OnOk result (out.new ≡ out.old ++ entry_bytes (directory_entry streams.now clsid.now k)) }
{
    if k == 0 {
        push_entry(out, &ROOT_NAME, clsid, &plan.root())
    } else if k <= streams.count() {
        let name = streams.name(k - 1);
        push_entry(out, name, &NO_CLSID, &plan.stream(k - 1, name.len()))
    } else {
        push_entry(out, &[], &NO_CLSID, &unused())
    }
}

/// The numbers of an entry that is not used.
fn unused() -> EntryFields
    ensures { result ≡ unused_fields }
{
    EntryFields {
        name_length: 0,
        kind: 0,
        colour: 0,
        left: NO_ENTRY,
        right: NO_ENTRY,
        child: NO_ENTRY,
        start: 0,
        size: 0,
    }
}
