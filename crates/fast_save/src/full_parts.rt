// The parts of a session right after a full save.
ghost use Rattle.std.specs.Prelude.{◌≡◌, [], length, IfOk};
ghost use Rattle.doc_bits.specs.Rules.{Hold};
ghost use Rattle.cfb_streams.specs.Container.{container_rules, HasContents};
ghost use Rattle.piece_table.specs.Piece.{one_piece};
ghost use Rattle.fib_form.specs.FibFields.{fib_fields};
ghost use Rattle.fib_form.specs.FibRules.{fib_rules};
ghost use Rattle.full_save.specs.Text.{text_items};
ghost use Rattle.full_save.specs.WordDocument.{full_fib, text_offset as begin_of_text};
ghost use Rattle.full_save.specs.Layout.{full_save_image};
ghost use Rattle.fast_save.specs.Laws.{IsSavable};
ghost use Rattle.session_text.specs.SessionText.{unwritten_count};
ghost use Rattle.fast_save.specs.Session.{IsSession};

use crate::parts::{SessionParts, required_stream};
use cfb_streams::{CfbFault, Container, word_document};
use doc_bits::Memory;
use doc_columns::ColumnDocument;
use fib_form::Fib;
use full_save::TEXT_START;
use piece_table::PieceList;
use std::alloc::Global;

/// The parts of the full save of a document: one piece, and no section whose properties are still to be written.
pub(crate) fn parts_in_full(
    alloc: Global,
    document: &ColumnDocument,
    file: &[u8],
) -> Result<SessionParts, Memory>
    requires savable { IsSavable document.now }
    requires file { file.now ≡ full_save_image document.now }
    ensures session { IfOk result (IsSession file.now document.now) }
    ensures pieces { IfOk result (λ parts. parts.text.pieces.pieces ≡
        one_piece begin_of_text (length (text_items document.now))) }
    ensures fib { IfOk result (λ parts. parts.fib ≡ full_fib document.now) }
    ensures fresh { IfOk result (λ parts. parts.text.added.items ≡ []) }
    ensures written { IfOk result (λ parts. unwritten_count parts.text.sections.items ≡ 0) }
{
    let container = load(alloc, file)?;
    let fib = read_fib(required_stream(&container, word_document()));
    let pieces = PieceList::one(alloc, TEXT_START, fib.text_len())?;
    SessionParts::of_file(alloc, document, fib, container, pieces)
}

/// The streams of a file that breaks no rule of containers.
pub(crate) fn load(alloc: Global, file: &[u8]) -> Result<Container, Memory>
    requires { Hold (container_rules file.now) }
    ensures { IfOk result (HasContents file.now) }
{
    match Container::load(alloc, file) {
        Ok(container) => Ok(container),
        // No rule is broken.
        Err(CfbFault::Rule { .. }) => unreachable!(),
        Err(CfbFault::Memory) => Err(Memory),
    }
}

/// The FIB of a `WordDocument` that breaks no rule of FIBs.
pub(crate) fn read_fib(wd: &[u8]) -> Fib
    requires { Hold (fib_rules wd.now) }
    ensures { result ≡ fib_fields wd.now }
{
    Fib::read(wd).unwrap()
}
