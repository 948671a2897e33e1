// What a session has beside its document: the text, and what a save reads of the file.
ghost use Rattle.std.specs.Prelude.{◌≡◌, ℕ, ◌+◌, ◌^◌, ◌<◌, ◌≤◌, [], List, length, slice_range, IfOk};
ghost use Rattle.cfb_streams.specs.Contents.{HasNamed};
ghost use Rattle.session_text.specs.SessionText.{unwritten_count};
ghost use Rattle.fast_save.specs.Session.{IsSession, text_base as base_behind, bin_length};
ghost use Rattle.fast_save.specs.Started.{IsOpenFile, IsReadFile, written_places};

use crate::stories::ends_behind;
use cfb_streams::{Container, table_name, word_document};
use doc_bits::Memory;
use doc_columns::ColumnDocument;
use doc_parts::{PartFault, Seds, sections};
use fib_form::{Fib, TablePart};
use piece_table::PieceList;
use session_text::SessionText;
use std::alloc::Global;

/// The text beside the document, and the FIB and the streams of the file that was given or last saved.
#[derive(Drop)]
pub(crate) struct SessionParts {
    pub(crate) text: SessionText,
    pub(crate) fib: Fib,
    pub(crate) container: Container,
}

impl SessionParts {
    /// The parts of a file that holds the document, to which nothing is added.
    pub(crate) fn of_file(
        alloc: Global,
        document: &ColumnDocument,
        fib: Fib,
        container: Container,
        pieces: PieceList,
    ) -> Result<SessionParts, Memory>
        requires { IsOpenFile (record {
          document = document.now;
          fib = fib;
          contents = container;
          pieces = pieces.pieces;
        }) }
        ensures session { IfOk result (λ parts. (opening : IsOpenFile (record {
          document = document.now;
          fib = fib;
          contents = container;
          pieces = pieces.pieces;
        })) → IsSession opening.file document.now parts) }
        ensures pieces { IfOk result (λ parts. parts.text.pieces.pieces ≡ pieces.pieces) }
        ensures fib { IfOk result (λ parts. parts.fib ≡ fib) }
        ensures fresh { IfOk result (λ parts. parts.text.added.items ≡ []) }
        ensures written { IfOk result (λ parts. unwritten_count parts.text.sections.items ≡ 0) }
    {
        let base = text_base(required_stream(&container, word_document()));
        let ends = ends_behind(document, &fib);
        let places = section_places(alloc, &fib, &container)?;
        Ok(SessionParts {
            text: SessionText::new(alloc, pieces, base, ends, places),
            fib,
            container,
        })
    }
}

/// A text has no more pieces than CPs.
pub(crate) fn pieces_are_few(pieces: &PieceList)
    ensures { length pieces.now.pieces ≤ 500001 }
{
    let _ = pieces.len();
}

/// The bytes of the two bin tables.
pub(crate) fn bin_bytes(fib: &Fib) -> u64
    ensures { result ≡ bin_length fib.now }
{
    let characters = fib.pair(TablePart::PlcfBteChpx.pair());
    let paragraphs = fib.pair(TablePart::PlcfBtePapx.pair());
    characters.1 as u64 + paragraphs.1 as u64
}

/// The bytes of a stream that is there.
pub(crate) fn required_stream<'a>(container: &'a Container, name: &[u16]) -> &'a [u8]
    requires { (bytes : List ℕ) × HasNamed container.now.streams name.now bytes }
    ensures { HasNamed container.now.streams name.now result.now }
{
    container.stream(name).unwrap()
}

/// Where text may be added behind a stream.
pub(crate) fn text_base(wd: &[u8]) -> u32
    requires { length wd.now ≤ 7143936 }
    ensures { result ≡ base_behind (length wd.now) }
{
    let pages = (wd.len() as u32 + 511) / 512;
    512 * pages
}

/// Where the properties of the sections of a file are.
pub(crate) fn section_places(
    alloc: Global,
    fib: &Fib,
    container: &Container,
) -> Result<Vec<Option<u32>>, Memory>
    requires { IsReadFile container.now fib.now }
    ensures { IfOk result (λ places. (file : IsReadFile container.now fib.now) →
        places.items ≡ written_places file.parts.lists.sections) }
{
    let table = required_stream(container, table_name(fib.which_table()));
    let pair = fib.pair(TablePart::PlcfSed.pair());
    let plc = part_of(table, pair);
    match sections(alloc, plc, pair.0, fib.ccp(0)) {
        Ok(seds) => places_of(alloc, &seds),
        // The sections of a file that was read break no rule.
        Err(PartFault::Rule { .. }) => unreachable!(),
        Err(PartFault::Memory) => Err(Memory),
    }
}

/// The bytes of the table stream that a pair of the FIB names, as far as they are within it.
fn part_of(table: &[u8], pair: (u32, u32)) -> &[u8]
    requires { length table.now < 2 ^ 32 }
    ensures bytes { result.now ≡ slice_range table.now pair.0 (pair.0 + pair.1) }
    ensures addressed { pair.0 + length result.now < 2 ^ 32 }
{
    let from = table.len().min(pair.0 as usize);
    let to = table.len().min(pair.0 as usize + pair.1 as usize);
    &table[from..to]
}

/// The places of the properties of sections.
fn places_of(alloc: Global, seds: &Seds) -> Result<Vec<Option<u32>>, Memory>
    ensures { IfOk result (λ places. places.items ≡ written_places seds.now) }
{
    let mut places = Vec::new(alloc);
    for k in 0..seds.len() {
        let (_, sepx) = seds.get(k);
        places.push(Some(sepx))?;
    }
    Ok(places)
}
