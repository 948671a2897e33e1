// What a document carries along unread.
ghost use Rattle.std.specs.Prelude.{◌≡◌, ◌<◌, ◌^◌, length, IfOk};
ghost use Rattle.file_rules.specs.Source.{table_part_bytes};
ghost use Rattle.file_rules.specs.PartRules.{HasPartLists, HoldButFormats};
ghost use Rattle.file_rules.specs.FileRules.{doc_source_of};
ghost use Rattle.doc_read.specs.CarriedParts.{AreWithinBounds, LeavesRoom, HoldsCarried, carried_streams};
ghost use Rattle.doc_read.specs.CarriedParts.{is_carried as is_other};

use cfb_streams::{Container, Streams, TABLE_0, TABLE_1, WORD_DOCUMENT, equal_names};
use doc_bits::{Bytes, Memory};
use fib_form::TablePart;
use file_rules::{DocParts, LoadedText, Source};
use plain_doc::Carried;
use std::alloc::Global;

/// Reads what the document carries along.
pub fn read_carried(
    alloc: Global,
    container: &Container,
    text: &LoadedText<'_>,
    parts: &DocParts<'_>,
) -> Result<Carried, Memory>
    requires bounds { AreWithinBounds container.now }
    requires room { LeavesRoom container.now text.now.table }
    requires rules { HoldButFormats (doc_source_of text.now) }
    requires lists { HasPartLists (doc_source_of text.now) parts.now }
    ensures { IfOk result (HoldsCarried container.now (doc_source_of text.now) parts.now.levels) }
{
    let fib = text.fib();
    let source = text.source();
    Ok(Carried {
        fonts: copy_part(alloc, &source, TablePart::SttbfFfn)?,
        dop: copy_part(alloc, &source, TablePart::Dop)?,
        assoc: copy_part(alloc, &source, TablePart::SttbfAssoc)?,
        lst: copy_part(alloc, &source, TablePart::PlfLst)?,
        levels: Bytes::from_slice(alloc, parts.levels)?,
        lfo: copy_part(alloc, &source, TablePart::PlfLfo)?,
        clsid: container.clsid(),
        lid: fib.lid(),
        lid_fe: fib.lid_fe(),
        flags: fib.kept_flags(),
        streams: copy_streams(alloc, container)?,
    })
}

/// Copies a part of the table stream.
fn copy_part(alloc: Global, source: &Source<'_>, part: TablePart) -> Result<Bytes, Memory>
    ensures bytes { IfOk result (λ copy. copy ≡ table_part_bytes source.now part) }
    ensures short { length (table_part_bytes source.now part) < 2 ^ 32 }
    ensures small { length source.now.table < 2 ^ 32 }
{
    Bytes::from_slice(alloc, source.part(part))
}

/// Copies the streams that no save makes.
fn copy_streams(alloc: Global, container: &Container) -> Result<Streams, Memory>
    requires { AreWithinBounds container.now }
    ensures { IfOk result (λ streams. streams ≡ carried_streams container.now.streams) }
{
    let mut streams = Streams::new(alloc);
    let count = container.count();
    for i in 0..count {
        let name = container.name(i);
        if is_carried(name) {
            streams.add(name, container.bytes(i))?;
        }
    }
    Ok(streams)
}

/// Whether a stream of this name is one that no save makes.
fn is_carried(name: &[u16]) -> bool
    ensures { result ≡ is_other name.now }
{
    !equal_names(name, &WORD_DOCUMENT)
        && !equal_names(name, &TABLE_0)
        && !equal_names(name, &TABLE_1)
}
