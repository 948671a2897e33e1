// What is looked at in a document.
ghost use Rattle.std.specs.Prelude.{◌≡◌, ◌<◌, length, IfOk};
ghost use Rattle.plain_doc.specs.Sound.{IsSound};
ghost use Rattle.doc_show.specs.MainText.{main_text_of};
ghost use Rattle.doc_show.specs.Counts.{accepted_line_of};
ghost use Rattle.doc_show.specs.Listing.{listing_of};
ghost use Rattle.document_commands.specs.Replies.{ShowsItemOrNone, ShowsOutline};
ghost use Rattle.document_commands.specs.declared.reply.Reply.TheVariants.{Done};

use crate::lines::position_line;
use crate::reply::{Refusal, Reply};
use doc_bits::Memory;
use doc_columns::ColumnDocument;
use doc_show::{
    accepted_line_of_columns, listing_of_columns, main_text_of_columns, props_lines_of_columns,
};
use list_numbers::outline_lines_of_columns;
use std::alloc::Global;

/// The main text of a document.
pub(crate) fn text_reply(alloc: Global, document: &ColumnDocument) -> Result<Reply, Memory>
    ensures { IfOk result (λ r. r ≡ Done (main_text_of document.now)) }
{
    let text = main_text_of_columns(alloc, document)?;
    Ok(Reply::Done(text))
}

/// How much a document has.
pub(crate) fn check_reply(alloc: Global, document: &ColumnDocument) -> Result<Reply, Memory>
    ensures { IfOk result (λ r. r ≡ Done (accepted_line_of document.now)) }
{
    let text = accepted_line_of_columns(alloc, document)?;
    Ok(Reply::Done(text))
}

/// The styles and texts of a document.
pub(crate) fn show_reply(alloc: Global, document: &ColumnDocument) -> Result<Reply, Memory>
    ensures { IfOk result (λ r. r ≡ Done (listing_of document.now)) }
{
    let text = listing_of_columns(alloc, document)?;
    Ok(Reply::Done(text))
}

/// An item of the main text of a document.
pub(crate) fn props_reply(
    alloc: Global,
    pos: u32,
    document: &ColumnDocument,
) -> Result<Reply, Memory>
    requires { IsSound document.now }
    ensures { IfOk result (ShowsItemOrNone pos document.now) }
{
    let len = document.main.len();
    if pos as usize >= len {
        let text = position_line(alloc, pos, len)?;
        return Ok(Reply::Refused {
            why: Refusal::Position,
            text,
        });
    }
    let text = props_lines_of_columns(alloc, document, pos as usize)?;
    Ok(Reply::Done(text))
}

/// The paragraphs of a document that have a number, or a level in the outline.
pub(crate) fn outline_reply(alloc: Global, document: &ColumnDocument) -> Result<Reply, Memory>
    requires { IsSound document.now }
    ensures { IfOk result (ShowsOutline document.now) }
{
    let text = outline_lines_of_columns(alloc, document)?;
    Ok(Reply::Done(text))
}
