// A copy of a file in which changes of tab stops have the code that docbin reads.
ghost use Rattle.std.specs.Prelude.{◌≡◌, ◌≤◌, List, ℕ, IfOk, MatchOption, length, option_map};
ghost use Rattle.doc_bits.specs.Rules.{Hold};
ghost use Rattle.cfb_streams.specs.Container.{HasContents, outer_rules};
ghost use Rattle.file_mends.specs.declared.mends.FileMend.{FileMend as Mend};
ghost use Rattle.file_mends.specs.Stops.{AreTableStops, AreWdStops, AreWithin, HasNoStops, ReadsCodes, ReadsStops};
ghost use Rattle.file_mends.specs.Stops.{with_codes, with_low_bytes};

use crate::file_streams::{FileStreams, STSHF, part_begin, part_bytes, streams_of};
use crate::mended_sheets::MendedCopy;
use crate::mends::FileMend;
use crate::rewriting::put_byte;
use cfb_sectors::CfbFault;
use cfb_streams::Container;
use doc_bits::Memory;
use std::alloc::Global;
use tab_stops::{page_stops, push_prc_stops, push_sheet_stops};

/// [MS-DOC] FibRgFcLcb97: the numbers of pairs.
const PLCF_BTE_CHPX: usize = 12;

const PLCF_BTE_PAPX: usize = 13;

const CLX: usize = 33;

/// [MS-DOC] The lower byte of sprmPChgTabsPapx.
const CHG_TABS_PAPX: u8 = 0x0D;

/// A copy of a file in which sprmPChgTabs is sprmPChgTabsPapx, where it deletes no tab stop.
pub fn with_stops_read(alloc: Global, file: &[u8]) -> Result<Option<MendedCopy>, Memory>
    ensures { IfOk result (λ found. MatchOption found
        (HasNoStops file.now) (λ made. ReadsStops file.now made.mend made.copy.items)) }
{
    match Container::load_outer(alloc, file) {
        Ok(outer) => {
            let found = stops_by(alloc, outer.container(), file);
            drop(outer);
            found
        }
        Err(CfbFault::Rule { .. }) => Ok(None),
        Err(CfbFault::Memory) => Err(Memory),
    }
}

/// The same by the streams of the file.
fn stops_by(alloc: Global, container: &Container, file: &[u8]) -> Result<Option<MendedCopy>, Memory>
    requires hold { Hold (outer_rules file.now) }
    requires has { HasContents file.now container.now }
    ensures { IfOk result (λ found. MatchOption found
        (HasNoStops file.now) (λ made. ReadsStops file.now made.mend made.copy.items)) }
{
    let Some(streams) = streams_of(container) else {
        return Ok(None);
    };
    codes_read(alloc, file, &streams)
}

/// The same by the two streams.
fn codes_read(
    alloc: Global,
    file: &[u8],
    streams: &FileStreams<'_>,
) -> Result<Option<MendedCopy>, Memory>
    requires { 900 ≤ length streams.now.wd }
    ensures { IfOk result (λ found. MatchOption found
        ((mend : Mend) (read : List ℕ) → ¬ ReadsCodes file.now streams.now mend read)
        (λ made. ReadsCodes file.now streams.now made.mend made.copy.items)) }
{
    let pages = wd_stops(alloc, streams)?;
    let parts = table_stops(alloc, streams)?;
    let count = pages.len() + parts.len();
    if count == 0 {
        return Ok(None);
    }
    let mut copy = Vec::from_slice(alloc, file)?;
    put_codes(&mut copy, streams.wd_sectors, &pages);
    put_codes(&mut copy, streams.table_sectors, &parts);
    Ok(Some(MendedCopy {
        mend: FileMend::StopsRead(count),
        copy,
    }))
}

/// Where the codes are in `WordDocument`, where it has sectors of its own.
fn wd_stops(alloc: Global, streams: &FileStreams<'_>) -> Result<Vec<usize>, Memory>
    requires { 900 ≤ length streams.now.wd }
    ensures { IfOk result (λ places.
        AreWithin streams.now.wd_sectors (AreWdStops streams.now.wd streams.now.table) places.items) }
{
    match streams.wd_sectors {
        Some(_) => pages_of(alloc, streams.wd, streams.table),
        None => Ok(Vec::new(alloc)),
    }
}

/// Where they are in the pages of paragraphs.
fn pages_of(alloc: Global, wd: &[u8], table: &[u8]) -> Result<Vec<usize>, Memory>
    requires { 900 ≤ length wd.now }
    ensures { IfOk result (λ places. AreWdStops wd.now table.now places.items) }
{
    let characters = part_bytes(wd, table, PLCF_BTE_CHPX);
    let paragraphs = part_bytes(wd, table, PLCF_BTE_PAPX);
    page_stops(alloc, wd, characters, paragraphs)
}

/// Where they are in the table stream, where it has sectors of its own.
fn table_stops(alloc: Global, streams: &FileStreams<'_>) -> Result<Vec<usize>, Memory>
    requires { 900 ≤ length streams.now.wd }
    ensures { IfOk result (λ places.
        AreWithin streams.now.table_sectors (AreTableStops streams.now.wd streams.now.table) places.items) }
{
    match streams.table_sectors {
        Some(_) => parts_of(alloc, streams.wd, streams.table),
        None => Ok(Vec::new(alloc)),
    }
}

/// Where they are in the style sheet and in the Clx.
fn parts_of(alloc: Global, wd: &[u8], table: &[u8]) -> Result<Vec<usize>, Memory>
    requires { 900 ≤ length wd.now }
    ensures { IfOk result (λ places. AreTableStops wd.now table.now places.items) }
{
    let mut places = Vec::new(alloc);
    push_sheet_stops(
        &mut places,
        part_bytes(wd, table, STSHF),
        part_begin(wd, STSHF),
    )?;
    push_prc_stops(&mut places, part_bytes(wd, table, CLX), part_begin(wd, CLX))?;
    Ok(places)
}

/// Puts the codes at places of a stream, where it has sectors of its own.
fn put_codes(file: &mut [u8], sectors: Option<&[u32]>, places: &[usize])
    ensures { file.new ≡ with_codes (option_map (λ c. c.now) sectors.entry) places.now file.old }
{
    match sectors {
        Some(sectors) => put_low_bytes(file, sectors, places),
        None => {}
    }
}

/// Puts the lower byte of the code at places of a stream.
fn put_low_bytes(file: &mut [u8], sectors: &[u32], places: &[usize])
    ensures { file.new ≡ with_low_bytes sectors.now places.now file.old }
{
    for k in 0..places.len() {
        put_byte(file, sectors, places[k], CHG_TABS_PAPX);
    }
}
