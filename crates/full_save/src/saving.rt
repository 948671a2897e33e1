// The full save of a document.
ghost use Rattle.std.specs.Prelude.{◌≡◌, ◌<◌, length, IfOk, MatchResult};
ghost use Rattle.plain_doc.specs.Sound.{IsSound};
ghost use Rattle.full_save.specs.WordDocument.{table_stream};
ghost use Rattle.full_save.specs.Layout.{full_save_image, layout_streams, full_save_sectors, FitsCompoundFile};
ghost use Rattle.full_save.specs.Layout.{IsTooLarge};
ghost use Rattle.doc_model.specs.Formed.{IsFormed};
ghost use Rattle.plain_doc.specs.RightDocument.{IsValidDocument};
ghost use Rattle.full_save.specs.WordDocument.{full_fib};
ghost use Rattle.full_save.specs.Made.{IsBodyOf};
ghost use Rattle.full_save.specs.RunsSoFar.{IsSavedTextOf};

use crate::SaveFault;
use crate::lengths::{PageCounts, table_len_with, wd_len};
use crate::made_parts::write_table;
use crate::streams::{lengths_with, streams_with};
use crate::text::{SavedText, text_of};
use crate::word_document::WordBody;
use cfb_layout::{LayoutFault, MAX_SECTORS, sectors_needed, whole};
use cfb_streams::Streams;
use doc_bits::{Bytes, Memory};
use doc_columns::{ColumnDocument, columns_are_formed};
use fib_form::{Fib, Form, KeptFib, Pairs};
use plain_doc::Document;
use std::alloc::Global;

/// The file of a document.
pub fn full(alloc: Global, document: &Document) -> Result<Bytes, SaveFault>
    requires { IsSound document.now }
    ensures { MatchResult result
        (λ file. (file ≡ full_save_image document.now) × FitsCompoundFile document.now)
        (IsTooLarge document.now) }
{
    let columns = ColumnDocument::from_document(alloc, document)?;
    let file = full_of_columns(alloc, &columns);
    drop(columns);
    file
}

/// The file of a document by columns.
pub fn full_of_columns(alloc: Global, document: &ColumnDocument) -> Result<Bytes, SaveFault>
    requires { IsSound document.now }
    ensures { MatchResult result
        (λ file. (file ≡ full_save_image document.now) × FitsCompoundFile document.now)
        (IsTooLarge document.now) }
{
    columns_are_formed(document);
    let text = text_of(alloc, document)?;
    let file = file_with(alloc, document, &text);
    drop(text);
    file
}

/// The number of sectors that the full save of a document needs, whether it fits a file or not.
pub fn sectors(alloc: Global, document: &Document) -> Result<u64, Memory>
    requires { IsSound document.now }
    ensures { IfOk result (λ sectors. sectors ≡ full_save_sectors document.now) }
{
    let columns = ColumnDocument::from_document(alloc, document)?;
    let sectors = sectors_of_columns(alloc, &columns);
    drop(columns);
    sectors
}

/// The number of sectors that the full save of a document by columns needs, whether it fits a file or not.
pub fn sectors_of_columns(alloc: Global, document: &ColumnDocument) -> Result<u64, Memory>
    requires { IsSound document.now }
    ensures { IfOk result (λ sectors. sectors ≡ full_save_sectors document.now) }
{
    columns_are_formed(document);
    let text = text_of(alloc, document)?;
    let sectors = sectors_with(alloc, document, &text);
    drop(text);
    sectors
}

/// The number of sectors of the full save with this text. Its streams are counted, and not made.
fn sectors_with(alloc: Global, document: &ColumnDocument, text: &SavedText) -> Result<u64, Memory>
    requires formed { IsFormed document.now }
    requires right { IsValidDocument document.now }
    requires text { IsSavedTextOf document.now text.now }
    ensures { IfOk result (λ sectors. sectors ≡ full_save_sectors document.now) }
{
    let pages = PageCounts::of(text);
    let table = table_len_with(alloc, document, pages)?;
    let wd = wd_len(document, text.len, pages);
    let lengths = lengths_with(alloc, &document.carried.streams, table, wd)?;
    Ok(sectors_needed(&lengths))
}

/// The file of a document with this text. It is refused before a stream is made.
fn file_with(alloc: Global, document: &ColumnDocument, text: &SavedText) -> Result<Bytes, SaveFault>
    requires formed { IsFormed document.now }
    requires right { IsValidDocument document.now }
    requires text { IsSavedTextOf document.now text.now }
    ensures { MatchResult result
        (λ file. (file ≡ full_save_image document.now) × FitsCompoundFile document.now)
        (IsTooLarge document.now) }
{
    let sectors = sectors_with(alloc, document, text)?;
    if MAX_SECTORS < sectors {
        return Err(SaveFault::TooLarge { sectors });
    }
    let body = WordBody::of(alloc, document, text)?;
    let file = file_of(alloc, document, &body)?;
    Ok(file)
}

/// The file of a document that fits.
fn file_of(alloc: Global, document: &ColumnDocument, body: &WordBody) -> Result<Bytes, SaveFault>
    requires formed { IsFormed document.now }
    requires right { IsValidDocument document.now }
    requires body { IsBodyOf document.now body.now }
    requires fits { FitsCompoundFile document.now }
    ensures { MatchResult result (λ file. file ≡ full_save_image document.now) (IsTooLarge document.now) }
{
    let streams = streams_of(alloc, document, body)?;
    match whole(alloc, &streams, document.carried.clsid) {
        Ok(file) => Ok(file),
        Err(LayoutFault::TooLarge { sectors }) => Err(SaveFault::TooLarge { sectors }),
        Err(LayoutFault::Memory) => Err(SaveFault::Memory),
    }
}

/// The streams of the file of a document that fits.
fn streams_of(alloc: Global, document: &ColumnDocument, body: &WordBody) -> Result<Streams, Memory>
    requires formed { IsFormed document.now }
    requires right { IsValidDocument document.now }
    requires body { IsBodyOf document.now body.now }
    requires fits { FitsCompoundFile document.now }
    ensures { IfOk result (λ streams. streams ≡ layout_streams document.now) }
{
    let table = write_table(alloc, document, &body.text)?;
    let fib = fib_of(document, body, &table.pairs);
    let wd = body.stream(alloc, &fib)?;
    streams_with(
        alloc,
        &document.carried.streams,
        table.bytes.as_slice(),
        wd.as_slice(),
    )
}

/// The number of bytes of the table stream in the full save of a document, whether it fits a file or not.
pub fn table_len(alloc: Global, document: &Document) -> Result<u64, Memory>
    requires { IsSound document.now }
    ensures { IfOk result (λ len. len ≡ length (table_stream document.now)) }
{
    let columns = ColumnDocument::from_document(alloc, document)?;
    let len = table_len_of_columns(alloc, &columns);
    drop(columns);
    len
}

/// The number of bytes of the table stream in the full save of a document by columns, whether it fits a file or not.
pub fn table_len_of_columns(alloc: Global, document: &ColumnDocument) -> Result<u64, Memory>
    requires { IsSound document.now }
    ensures { IfOk result (λ len. len ≡ length (table_stream document.now)) }
{
    columns_are_formed(document);
    let text = text_of(alloc, document)?;
    let pages = PageCounts::of(&text);
    drop(text);
    table_len_with(alloc, document, pages)
}

/// The FIB of the full save, of the early form.
fn fib_of(document: &ColumnDocument, body: &WordBody, pairs: &Pairs) -> Fib
    requires formed { IsFormed document.now }
    requires right { IsValidDocument document.now }
    requires body { IsBodyOf document.now body.now }
    requires pairs { pairs.now ≡ (full_fib document.now).pairs }
    ensures { result ≡ full_fib document.now }
{
    let carried = &document.carried;
    let kept = KeptFib {
        lid: carried.lid,
        lid_fe: carried.lid_fe,
        flags: carried.flags,
    };
    Fib::made(Form::Early, kept, body.cb_mac(), body.text.counts, pairs)
}
