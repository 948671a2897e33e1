// When a fast save is refused, and the file of one.
ghost use Rattle.std.specs.Prelude.{◌≡◌, ◌<◌, ◌≤◌, ◌+◌, length, MatchResult};
ghost use Rattle.piece_table.specs.Piece.{ArePieces};
ghost use Rattle.doc_model.specs.Document.{IsFormedText};
ghost use Rattle.doc_model.specs.Formed.{IsFormed};
ghost use Rattle.plain_doc.specs.Sound.{IsSound};
ghost use Rattle.cfb_layout.specs.Counts.{most_sectors};
ghost use Rattle.full_save.specs.WordDocument.{table_stream};
ghost use Rattle.fast_save.specs.declared.fast.FastFault.TheVariants.{Sixteenth, TooManyPieces, TooLarge};
ghost use Rattle.fast_save.specs.declared.fast.FastFault.TheVariants.{Memory as NoMemory};
ghost use Rattle.fast_save.specs.Ledgers.{sector_bound};
ghost use Rattle.fast_save.specs.Fast.{IsFastFault, IsWithinCounts, CanSaveFast, IsFastFile, most_pieces};

use crate::ledgers::Counts;
use crate::parts::SessionParts;
use cfb_layout::MAX_SECTORS;
use doc_bits::{Bytes, Memory};
use doc_columns::{ColumnDocument, columns_are_formed};
use fast_save_layout::{AppendFault, EditedText, SavedFile, append};
use fib_form::{Fib, MAX_QUICK_SAVES};
use full_save::table_len_of_columns;
use session_text::SessionText;
use std::alloc::Global;
use thiserror::Error;

/// The most pieces of a fast save.
const MAX_PIECES: u64 = 16_384;

/// The pieces that one more edit may add.
const PIECES_LEFT: u64 = 4;

/// Why a session is not saved fast.
#[derive(Clone, Copy, Debug, Error)]
pub enum FastFault {
    /// So many fast saves were made in a row, which is 15.
    #[error("{count} quick saves in a row")]
    Sixteenth { count: u8 },
    /// There are so many pieces, to which an edit might add 4, which is more than 16,384.
    #[error("{pieces} pieces")]
    TooManyPieces { pieces: u64 },
    /// So many sectors are reckoned, which is more than 13,952.
    #[error("{sectors} sectors are needed")]
    TooLarge { sectors: u64 },
    #[error("out of memory")]
    Memory,
}

impl From<Memory> for FastFault {
    ghost use Rattle.std.specs.Prelude.{◌≡◌};
    ghost use Rattle.fast_save.specs.declared.fast.FastFault.TheVariants.{Memory};

    ghost from_gives = { λ _ e. e ≡ Memory };

    fn from(_: Memory) -> Self {
        FastFault::Memory
    }
}

/// The sectors that are reckoned for a fast save of a document, unless it is refused.
pub(crate) fn check_save(
    alloc: Global,
    document: &ColumnDocument,
    fib: &Fib,
    counts: &Counts,
) -> Result<u64, FastFault>
    requires sound { IsSound document.now }
    requires saves { fib.now.quick_saves ≤ 15 }
    ensures { MatchResult result
        (λ sectors. IsWithinCounts fib.now.quick_saves counts.now (length (table_stream document.now))
        × (sectors ≡ sector_bound counts.now (length (table_stream document.now))))
        (IsFastFault fib.now.quick_saves counts.now (length (table_stream document.now))) }
{
    check_save_count(fib)?;
    check_piece_count(counts)?;
    let len = table_len_of_columns(alloc, document)?;
    check_sectors(counts, len)
}

/// Refuses the sixteenth fast save in a row.
fn check_save_count(fib: &Fib) -> Result<(), FastFault>
    requires { fib.now.quick_saves ≤ 15 }
    ensures { MatchResult result (λ _. fib.now.quick_saves < 15)
        (λ fault. (fault ≡ Sixteenth 15) × (fib.now.quick_saves ≡ 15)) }
{
    let count = fib.quick_saves();
    if count >= MAX_QUICK_SAVES {
        return Err(FastFault::Sixteenth { count });
    }
    Ok(())
}

/// Refuses too many pieces.
fn check_piece_count(counts: &Counts) -> Result<(), FastFault>
    ensures { MatchResult result (λ _. counts.now.pieces + 4 ≤ most_pieces)
        (λ fault. (fault ≡ TooManyPieces counts.now.pieces) × (most_pieces < counts.now.pieces + 4)) }
{
    let pieces = counts.pieces;
    if pieces > MAX_PIECES - PIECES_LEFT {
        return Err(FastFault::TooManyPieces { pieces });
    }
    Ok(())
}

/// The sectors that are reckoned, where they are in a file.
fn check_sectors(counts: &Counts, table_bytes: u64) -> Result<u64, FastFault>
    ensures { MatchResult result
        (λ sectors. (sectors ≡ sector_bound counts.now table_bytes)
        × (sector_bound counts.now table_bytes ≤ most_sectors))
        (λ fault. (fault ≡ TooLarge (sector_bound counts.now table_bytes))
        × (most_sectors < sector_bound counts.now table_bytes)) }
{
    let sectors = counts.sector_bound(table_bytes);
    if sectors > MAX_SECTORS {
        return Err(FastFault::TooLarge { sectors });
    }
    Ok(sectors)
}

/// The file of a document whose text is this one, saved behind the file that is there.
pub(crate) fn append_text(
    alloc: Global,
    bytes: &[u8],
    document: &ColumnDocument,
    parts: &SessionParts,
    text: &SessionText,
) -> Result<Bytes, FastFault>
    requires { CanSaveFast bytes.now document.now (record parts.now { text = text.now }) }
    ensures { MatchResult result
        (λ file. (can : CanSaveFast bytes.now document.now (record parts.now { text = text.now })) →
        IsFastFile can file)
        (λ fault. fault ≡ NoMemory) }
{
    text_is_formed(document, text);
    let old = SavedFile {
        fib: &parts.fib,
        container: &parts.container,
        bytes,
    };
    let edited = EditedText {
        pieces: &text.pieces,
        ends: text.ends,
        base: text.added.base,
        added: &text.added.items,
        sections: &text.sections,
    };
    match append(alloc, &old, document, &edited) {
        Ok(file) => Ok(file),
        Err(AppendFault::Memory) => Err(FastFault::Memory),
        // The counts refuse such saves before they are made.
        Err(AppendFault::Sixteenth) => unreachable!(),
        Err(AppendFault::TooLarge { .. }) => unreachable!(),
    }
}

/// What the types of a document and of its text tell.
pub(crate) fn text_is_formed(document: &ColumnDocument, text: &SessionText)
    ensures document { IsFormed document.now }
    ensures items { IsFormedText text.now.added.items }
    ensures pieces { ArePieces text.now.pieces.pieces }
{
    columns_are_formed(document);
    let _ = text.added.items.len();
    let _ = text.pieces.len();
}
