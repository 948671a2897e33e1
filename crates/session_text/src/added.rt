// The text that a session has added since its last save.
ghost use Rattle.std.specs.Prelude.{◌≡◌, ◌+◌, ◌*◌, ◌^◌, ◌<◌, ◌++◌, length, IfOk, OnOk};
ghost use Rattle.doc_model.specs.Document.{HasPropertyMaps};
ghost use Rattle.full_save.specs.Text.{extra_mark as mark_behind};
ghost use Rattle.session_text.specs.AddedText.{marked_block, added_piece};

use doc_bits::Memory;
use doc_columns::Columns;
use piece_table::Piece;
use plain_doc::{Item, Mark};
use prop_map::PropMap;
use std::alloc::Global;
use std::mem;
use text_codes::PARAGRAPH_MARK;

/// Items whose units, of two bytes each, are from a byte of `WordDocument` on. The next fast save writes them.
#[derive(Drop)]
pub struct Added {
    pub base: u32,
    pub items: Columns,
}

impl Added {
    /// A copy of the text, which shares its maps.
    pub(crate) fn copy(&self, alloc: Global) -> Result<Added, Memory>
        ensures { IfOk result (λ copy. copy ≡ self.now) }
    {
        Ok(Added {
            base: self.base,
            items: self.items.copy(alloc, 0, self.items.len())?,
        })
    }

    /// Appends items, and so many marks behind them. Answers the piece of both, where there are some.
    pub(crate) fn append(
        &mut self,
        alloc: Global,
        items: Columns,
        marks: usize,
    ) -> Result<Option<Piece>, Memory>
        requires few { self.old.base + 2 * (length self.old.items + (length items + marks)) < 2 ^ 32 }
        ensures piece { IfOk result (λ piece. piece ≡
            added_piece (self.old.base + 2 * length self.old.items) (length items + marks)) }
        ensures items { OnOk result (self.new.items ≡ self.old.items ++ marked_block items marks) }
        ensures base { self.new.base ≡ self.old.base }
    {
        let block = with_marks(alloc, items, marks)?;
        let begin = self.items.len();
        let len = block.len();
        let before = mem::replace(&mut self.items, Columns::new(alloc));
        self.items = before.splice(alloc, begin, begin, block)?;
        Ok(piece_of(self.base + 2 * begin as u32, len as u32))
    }
}

/// Items, and so many marks behind them.
fn with_marks(alloc: Global, mut items: Columns, marks: usize) -> Result<Columns, Memory>
    requires { length items + marks < 2 ^ 32 }
    ensures { IfOk result (λ block. block ≡ marked_block items marks) }
{
    for _k in 0..marks {
        items = items.add(extra_mark(alloc))?;
    }
    Ok(items)
}

/// A mark of style 0, without properties.
pub(crate) fn extra_mark(alloc: Global) -> Item
    ensures mark { result ≡ mark_behind }
    ensures maps { HasPropertyMaps result }
{
    Item {
        unit: PARAGRAPH_MARK,
        fld: None,
        note: None,
        chp: PropMap::new(alloc),
        mark: Some(Mark {
            istd: 0,
            pap: PropMap::new(alloc),
        }),
        sect: None,
    }
}

/// The piece of so many units from a byte on, where there are some.
#[tactic(auto, using(crate::proofs::PieceLemmas::piece_some))]
fn piece_of(at: u32, len: u32) -> Option<Piece>
    ensures { result ≡ added_piece at len }
{
    if len == 0 {
        None
    } else {
        Some(Piece {
            at,
            wide: true,
            len,
        })
    }
}
