// Saves of a document.
ghost use Rattle.std.specs.Prelude.{◌≡◌, length, IfOk, MatchResult, codes};
ghost use Rattle.doc_model.specs.declared.document.Document.{Document as SavedDocument};
ghost use Rattle.full_save.specs.Layout.{full_save_image, FitsCompoundFile, IsTooLarge};
ghost use Rattle.plain_doc.specs.Sound.{IsSound};
ghost use Rattle.document_commands.specs.Saves.{Saves};
ghost use Rattle.document_commands.specs.declared.reply.Reply.TheVariants.{Made, Refused};
ghost use Rattle.document_commands.specs.declared.reply.Refusal.TheVariants.{Save};
ghost use Rattle.document_commands.specs.Lines.{bytes_line as bytes_of, needs_sectors_line as needs_of};

use crate::lines::{bytes_line, needs_line};
use crate::reply::{Refusal, Reply};
use doc_bits::{Bytes, Memory};
use doc_columns::ColumnDocument;
use full_save::{SaveFault, full_of_columns};
use std::alloc::Global;

/// The full save of a document.
pub(crate) fn full_reply(alloc: Global, document: &ColumnDocument) -> Result<Reply, Memory>
    requires { IsSound document.now }
    ensures { IfOk result (Saves (codes "full") document.now) }
{
    save_reply(alloc, "full", document)
}

/// The full save of a document, for a command of this word.
pub(crate) fn save_reply(
    alloc: Global,
    word: &str,
    document: &ColumnDocument,
) -> Result<Reply, Memory>
    requires { IsSound document.now }
    ensures { IfOk result (Saves word.now document.now) }
{
    let reply = reply_of(alloc, word, full_of_columns(alloc, document))?;
    Ok(reply)
}

/// The reply of what a full save comes to.
fn reply_of(alloc: Global, word: &str, file: Result<Bytes, SaveFault>) -> Result<Reply, Memory>
    ensures { IfOk result (λ reply. (document : SavedDocument) →
        MatchResult file (λ bytes. (bytes ≡ full_save_image document) × FitsCompoundFile document)
        (IsTooLarge document) → Saves word.now document reply) }
{
    match file {
        Ok(bytes) => reply_of_bytes(alloc, word, bytes),
        Err(fault) => not_made(alloc, word, fault),
    }
}

/// The reply where a full save makes no file.
fn not_made(alloc: Global, word: &str, fault: SaveFault) -> Result<Reply, Memory>
    ensures { IfOk result (λ reply. (document : SavedDocument) →
        IsTooLarge document fault → Saves word.now document reply) }
{
    match fault {
        SaveFault::TooLarge { sectors } => too_large(alloc, word, sectors),
        SaveFault::Memory => Err(Memory),
    }
}

/// The reply of bytes that a command made.
pub(crate) fn reply_of_bytes(alloc: Global, word: &str, bytes: Bytes) -> Result<Reply, Memory>
    ensures { IfOk result (λ r. r ≡ Made (bytes_of word.now (length bytes)) bytes) }
{
    let text = bytes_line(alloc, word, bytes.as_slice().len())?;
    Ok(Reply::Made { text, bytes })
}

/// The reply of a save that needs more sectors than a file has.
fn too_large(alloc: Global, word: &str, sectors: u64) -> Result<Reply, Memory>
    ensures { IfOk result (λ r. r ≡ Refused Save (needs_of word.now sectors)) }
{
    let text = needs_line(alloc, word, sectors)?;
    Ok(Reply::Refused {
        why: Refusal::Save,
        text,
    })
}
