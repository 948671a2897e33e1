// A document with another title.
ghost use Rattle.std.specs.Prelude.{◌≡◌, ◌<◌, length, Some, option_map, IfOk};
ghost use Rattle.doc_model.specs.Carried.{AreCarriedStreams, with_bytes};
ghost use Rattle.plain_doc.specs.Sound.{IsSound};
ghost use Rattle.doc_read.specs.CarriedParts.{AreShortStreams};
ghost use Rattle.document_commands.specs.Summaries.{summary_place as place_of, summary_of, HasSummaryBytes, SavesWith};
ghost use Rattle.document_commands.specs.Summaries.{PutsTitle};

use crate::reply::Reply;
use crate::save::save_reply;
use crate::summary::{no_summary, summary_place, wrong_summary};
use crate::title::Title;
use cfb_streams::Streams;
use doc_bits::{Memory, Text};
use doc_columns::ColumnDocument;
use run_stages::reason_of_name;
use std::alloc::Global;
use summary_set::{SetFault, code_page, with_title};

/// [MS-OLEPS] the code pages of UTF-16, in either order of bytes.
const CP_WINUNICODE: u16 = 1200;

const CP_WINUNICODE_BIG: u16 = 1201;

/// What is told where the letters of a title are put as ASCII among texts in UTF-16.
const UTF16_WARNING: &str =
    "the summary's texts are UTF-16 (code page 1200 or 1201), and the title was put as ASCII";

/// The full save of the document of a name with this title.
pub(crate) fn retitle_reply(
    alloc: Global,
    title: &Title<'_>,
    name: &str,
    document: &ColumnDocument,
) -> Result<Reply, Memory>
    requires sound { IsSound document.now }
    requires short { AreShortStreams document.now.carried.streams }
    ensures { IfOk result (PutsTitle title.now name.now document.now) }
{
    let streams = &document.carried.streams;
    let place = summary_place(streams);
    let count = streams.count();
    if place >= count {
        return no_summary(alloc, name);
    }
    set_title(alloc, title, name, document, streams.bytes(place))
}

/// The full save of a document that carries this summary, with the title.
fn set_title(
    alloc: Global,
    title: &Title<'_>,
    name: &str,
    document: &ColumnDocument,
    summary: &[u8],
) -> Result<Reply, Memory>
    requires sound { IsSound document.now }
    requires short { AreShortStreams document.now.carried.streams }
    requires here { option_map (λ s. s.bytes) (summary_of document.now.carried.streams) ≡ Some summary.now }
    ensures { IfOk result (PutsTitle title.now name.now document.now) }
{
    match with_title(alloc, summary, title.bytes()) {
        Ok(bytes) => saved_with(alloc, document, bytes.as_slice()),
        Err(SetFault::Form { at }) => wrong_summary(alloc, name, at),
        Err(SetFault::Memory) => Err(Memory),
    }
}

/// What is told where a title is put into a summary whose texts are UTF-16: the bytes put are ASCII.
pub(crate) fn title_warning(
    alloc: Global,
    name: &str,
    streams: &Streams,
) -> Result<Option<Text>, Memory>
    requires { AreShortStreams streams.now }
{
    let place = summary_place(streams);
    let count = streams.count();
    if place >= count {
        return Ok(None);
    }
    match code_page(alloc, streams.bytes(place)) {
        Ok(Some(CP_WINUNICODE | CP_WINUNICODE_BIG)) => {
            let warning = reason_of_name(alloc, name, UTF16_WARNING)?;
            Ok(Some(warning))
        }
        Err(SetFault::Memory) => Err(Memory),
        _ => Ok(None),
    }
}

/// The full save of a document with these bytes in its summary.
fn saved_with(alloc: Global, document: &ColumnDocument, bytes: &[u8]) -> Result<Reply, Memory>
    requires sound { IsSound document.now }
    requires there { place_of document.now.carried.streams < length document.now.carried.streams }
    requires room { AreCarriedStreams
        (with_bytes document.now.carried.streams (place_of document.now.carried.streams) bytes.now) }
    ensures { IfOk result (SavesWith document.now bytes.now) }
{
    let copy = document.copy(alloc)?;
    let changed = with_summary(alloc, copy, bytes)?;
    let reply = save_reply(alloc, "retitle", &changed);
    drop(changed);
    reply
}

/// The document with these bytes in its summary.
fn with_summary(
    alloc: Global,
    document: ColumnDocument,
    bytes: &[u8],
) -> Result<ColumnDocument, Memory>
    requires there { place_of document.carried.streams < length document.carried.streams }
    requires room { AreCarriedStreams
        (with_bytes document.carried.streams (place_of document.carried.streams) bytes.now) }
    ensures { IfOk result (HasSummaryBytes document bytes.now) }
{
    let ColumnDocument {
        main,
        notes,
        heads,
        sheet,
        carried,
        bookmarks,
    } = document;
    let place = summary_place(&carried.streams);
    let carried = carried.with_stream(alloc, place, bytes)?;
    Ok(ColumnDocument {
        main,
        notes,
        heads,
        sheet,
        carried,
        bookmarks,
    })
}
