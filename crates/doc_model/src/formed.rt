// What holds of every document, and of the blank one.
ghost use Rattle.std.specs.Prelude.{◌∷◌, All};
ghost use Rattle.doc_bits.specs.Number.{AreBytes};
ghost use Rattle.doc_model.specs.Formed.{IsFormed, BlankIsFormed, carried_parts};

use crate::ranges::{are_bytes, is_word};
use crate::{Carried, Document};

/// Every document is well formed: its types keep it so.
pub fn documents_are_formed(document: &Document)
    ensures { IsFormed document.now }
{
    let _ = document.main.len();
    let _ = document.notes.len();
    let _ = document.heads.len();
    let _ = document.bookmarks.len();
    let _ = document.sheet.slots();
    let carried = &document.carried;
    let _ = carried.streams.count();
    is_word(carried.lid);
    is_word(carried.lid_fe);
    carries_bytes(carried);
}

/// The CLSID and the parts are bytes.
fn carries_bytes(carried: &Carried)
    ensures { All AreBytes (carried.now.clsid ∷ carried_parts carried.now) }
{
    are_bytes(&carried.clsid);
    are_bytes(carried.fonts.as_slice());
    are_bytes(carried.dop.as_slice());
    are_bytes(carried.assoc.as_slice());
    are_bytes(carried.lst.as_slice());
    are_bytes(carried.levels.as_slice());
    are_bytes(carried.lfo.as_slice());
}

/// The blank document is well formed.
pub fn blank_is_formed()
    ensures { BlankIsFormed }
{}
