// What holds of every document by columns. None of these functions does anything when it runs.
ghost use Rattle.std.specs.Prelude.{◌≡◌, ◌∷◌, length, All};
ghost use Rattle.doc_bits.specs.Number.{AreBytes};
ghost use Rattle.doc_model.specs.Formed.{IsFormed, carried_parts};

use crate::ColumnDocument;
use plain_doc::{Carried, is_word};

/// Every document by columns is well formed: its types keep it so.
pub fn columns_are_formed(document: &ColumnDocument)
    ensures { IsFormed document.now }
{
    let _ = document.main.len();
    let _ = document.notes.len();
    let _ = document.heads.len();
    let _ = document.bookmarks.len();
    let _ = document.sheet.slots();
    let carried = &document.carried;
    let _ = carried.streams.count();
    is_word(carried.lid);
    is_word(carried.lid_fe);
    carries_bytes(carried);
}

/// The CLSID and the parts are bytes, and the CLSID has 16 of them.
fn carries_bytes(carried: &Carried)
    ensures bytes { All AreBytes (carried.now.clsid ∷ carried_parts carried.now) }
    ensures clsid { length carried.now.clsid ≡ 16 }
{
    are_bytes(&carried.clsid);
    are_bytes(carried.fonts.as_slice());
    are_bytes(carried.dop.as_slice());
    are_bytes(carried.assoc.as_slice());
    are_bytes(carried.lst.as_slice());
    are_bytes(carried.levels.as_slice());
    are_bytes(carried.lfo.as_slice());
}

/// Bytes are below 2^8.
fn are_bytes(bytes: &[u8])
    ensures { AreBytes bytes.now }
{}
