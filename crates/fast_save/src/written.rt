// The text that a fast save writes: one that is written again, where it takes no more than is reckoned.
ghost use Rattle.std.specs.Prelude.{◌≡◌, ◌↔◌, ◌+◌, ◌*◌, ◌≤◌, IsTrue, IfOk, MatchResult, MatchOption, length};
ghost use Rattle.fast_save_layout.specs.AddedPages.{HasParagraphBins, HavePages};
ghost use Rattle.fast_save.specs.declared.fast.FastFault.TheVariants.{Memory as NoMemory};
ghost use Rattle.fast_save.specs.Written.{CanWrite, HasFewPages, IsFitting, IsTooMuch, IsTextToWrite, IsTextOfFewer};
ghost use Rattle.fast_save.specs.Written.{IsWrittenFile, with_text, pieces_after};

use crate::fast::{FastFault, append_text, text_is_formed};
use crate::ledgers::Counts;
use crate::parts::SessionParts;
use doc_bits::{Bytes, Memory};
use doc_columns::ColumnDocument;
use fast_save_layout::{EditedText, SavedFile, added_pages};
use piece_table::PieceList;
use session_text::{OldPieces, SessionText};
use std::alloc::Global;

/// The bytes of a page.
const PAGE_LEN: u64 = 512;

/// The bytes of the file of a fast save, and the pieces of the text in it, where they are other ones.
#[derive(Drop)]
pub(crate) struct WrittenFile {
    pub(crate) file: Bytes,
    pub(crate) pieces: Option<PieceList>,
}

/// The file of a document, with its text written again where that takes no more than is reckoned.
pub(crate) fn written_file(
    alloc: Global,
    bytes: &[u8],
    document: &ColumnDocument,
    parts: &SessionParts,
    counts: &Counts,
) -> Result<WrittenFile, FastFault>
    requires { CanWrite bytes.now document.now parts.now counts.now }
    ensures { MatchResult result
        (IsWrittenFile bytes.now document.now parts.now counts.now) (λ fault. fault ≡ NoMemory) }
{
    match text_to_write(alloc, bytes, document, parts, counts)? {
        Some(text) => {
            let file = append_text(alloc, bytes, document, parts, &text)?;
            let pieces = Some(text.pieces);
            Ok(WrittenFile { file, pieces })
        }
        None => {
            let file = append_text(alloc, bytes, document, parts, &parts.text)?;
            Ok(WrittenFile { file, pieces: None })
        }
    }
}

/// The text that is written again with the old pieces that have a modifier, where it takes no more than is reckoned;
/// else with fewer of them.
fn text_to_write(
    alloc: Global,
    bytes: &[u8],
    document: &ColumnDocument,
    parts: &SessionParts,
    counts: &Counts,
) -> Result<Option<SessionText>, Memory>
    requires { CanWrite bytes.now document.now parts.now counts.now }
    ensures { IfOk result (IsTextToWrite document.now parts.now counts.now) }
{
    let whole = rewritten_if_it_fits(alloc, bytes, document, parts, counts, OldPieces::Modified)?;
    match whole {
        Some(text) => Ok(Some(text)),
        None => text_of_fewer(alloc, bytes, document, parts, counts),
    }
}

/// The text that is written again with the old pieces that set marks, where it takes no more than is reckoned; else with
/// none, where that does not.
fn text_of_fewer(
    alloc: Global,
    bytes: &[u8],
    document: &ColumnDocument,
    parts: &SessionParts,
    counts: &Counts,
) -> Result<Option<SessionText>, Memory>
    requires { CanWrite bytes.now document.now parts.now counts.now }
    ensures { IfOk result (IsTextOfFewer document.now parts.now counts.now) }
{
    let marking = rewritten_if_it_fits(alloc, bytes, document, parts, counts, OldPieces::Marking)?;
    match marking {
        Some(text) => Ok(Some(text)),
        None => rewritten_if_it_fits(alloc, bytes, document, parts, counts, OldPieces::Kept),
    }
}

/// The text written again, where it takes no more than is reckoned.
fn rewritten_if_it_fits(
    alloc: Global,
    bytes: &[u8],
    document: &ColumnDocument,
    parts: &SessionParts,
    counts: &Counts,
    which: OldPieces,
) -> Result<Option<SessionText>, Memory>
    requires { CanWrite bytes.now document.now parts.now counts.now }
    ensures { IfOk result (λ text. MatchOption text (IsTooMuch document.now parts.now counts.now which)
        (IsFitting document.now parts.now counts.now which)) }
{
    text_is_formed(document, &parts.text);
    let text = parts.text.written_again(alloc, document, which)?;
    let few = fits_the_bound(alloc, bytes, parts, &text, counts)?;
    if few { Ok(Some(text)) } else { Ok(None) }
}

/// Whether the pages of a text and the bytes of its units are no more than is reckoned.
fn fits_the_bound(
    alloc: Global,
    bytes: &[u8],
    parts: &SessionParts,
    text: &SessionText,
    counts: &Counts,
) -> Result<bool, Memory>
    requires file { HasParagraphBins parts.now.fib parts.now.container }
    requires text { HavePages text.now.added.base text.now.added.items }
    requires few { length text.now.added.items ≤ 500001 }
    requires runs { counts.now.runs ≤ 6976000 }
    requires units { counts.now.units ≤ 6976000 }
    ensures { IfOk result (λ few. IsTrue few ↔ HasFewPages (with_text parts.now text.now) counts.now) }
{
    let old = SavedFile {
        fib: &parts.fib,
        container: &parts.container,
        bytes,
    };
    let edited = EditedText {
        pieces: &text.pieces,
        ends: text.ends,
        base: text.added.base,
        added: &text.added.items,
        sections: &text.sections,
    };
    let pages = added_pages(alloc, &old, &edited)?;
    let units = (2 * text.added.items.len() as u64).div_ceil(PAGE_LEN);
    let reckoned = 2 * counts.units + PAGE_LEN * counts.runs + 1_536;
    Ok(pages <= 2 * counts.runs + 32 && units + pages <= reckoned / PAGE_LEN)
}

/// Puts pieces in place of others, where there are some.
pub(crate) fn put_pieces(pieces: &mut PieceList, new: Option<PieceList>)
    ensures { pieces.new.pieces ≡ pieces_after new pieces.old }
{
    if let Some(new) = new {
        *pieces = new;
    }
}
