// A document as JSON.
ghost use Rattle.std.specs.Prelude.{◌≡◌, IfOk};
ghost use Rattle.document_commands.specs.declared.reply.Reply.TheVariants.{Refused};
ghost use Rattle.document_commands.specs.declared.reply.Refusal.TheVariants.{Save};
ghost use Rattle.document_commands.specs.Exports.{too_large_line as too_large_of, Exports};

use crate::reply::{Refusal, Reply};
use crate::save::reply_of_bytes;
use doc_bits::{Bytes, Memory, Text};
use doc_columns::ColumnDocument;
use json_doc::json_out_of_columns;
use std::alloc::Global;

/// The most bytes of a text that is put: so many are read of a file at most.
const MAX_EXPORTED: u64 = 7_143_936;

/// The text of a document as JSON.
pub(crate) fn export_reply(alloc: Global, document: &ColumnDocument) -> Result<Reply, Memory>
    ensures { IfOk result (Exports document.now) }
{
    let out = json_out_of_columns(alloc, document, MAX_EXPORTED)?;
    match out.text() {
        Some(text) => {
            let bytes = Bytes::from_slice(alloc, text.as_bytes())?;
            reply_of_bytes(alloc, "export", bytes)
        }
        None => too_large(alloc, out.len()),
    }
}

/// The reply of a text that has too many bytes.
fn too_large(alloc: Global, count: u64) -> Result<Reply, Memory>
    ensures { IfOk result (λ r. r ≡ Refused Save (too_large_of count)) }
{
    let text = too_large_line(alloc, count)?;
    Ok(Reply::Refused {
        why: Refusal::Save,
        text,
    })
}

/// The line of a text that has too many bytes.
fn too_large_line(alloc: Global, count: u64) -> Result<Text, Memory>
    ensures { IfOk result (λ text. text ≡ too_large_of count) }
{
    let line = format!(in alloc; "export: too large, {count} bytes\n")?;
    Ok(Text::from_string(line))
}
