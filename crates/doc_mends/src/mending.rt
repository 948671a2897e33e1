// All mends of a document, one kind after the other.
ghost use Rattle.std.specs.Prelude.{◌≡◌, [], IsTrue, IfOk, OnOk, OnErr};
ghost use Rattle.doc_model.specs.Marks.{HasFormedBookmarks};
ghost use Rattle.plain_doc.specs.Sound.{IsSound};
ghost use Rattle.doc_losses.specs.Marks.{names_of_marks};
ghost use Rattle.doc_losses.specs.References.{references};
ghost use Rattle.doc_mends.specs.Kept.{KeepsAllButTexts};
ghost use Rattle.doc_mends.specs.Mending.{IsMended, mended_in_place, mends_in_place};

use crate::bases::drop_bases;
use crate::cutting::cut_references;
use crate::ending::end_texts;
use crate::marking::normal_marks;
use crate::mends::Mend;
use crate::tables::plain_rows;
use doc_bits::Memory;
use doc_columns::{ColumnDocument, is_sound};
use doc_losses::Marks;
use std::alloc::Global;

/// Mends a document: bases of styles that break rule 65 go, marks without a style of paragraphs get style 0, rows that
/// break rule 63 become paragraphs, marks of stories that are left out are cut, and texts that do not end with a
/// paragraph get an end. Without memory what is carried stays, and its texts, styles and bookmarks may be any.
pub fn mend(
    alloc: Global,
    document: &mut ColumnDocument,
    marks: &Marks,
) -> Result<Vec<Mend>, Memory>
    requires { HasFormedBookmarks document.old }
    ensures ok { IfOk result (λ mends.
        IsMended (names_of_marks marks.now) document.old document.new mends.items) }
    ensures err { OnErr result (document.new.carried ≡ document.old.carried) }
{
    let mut mends = drop_bases(alloc, document)?;
    let right = is_right(alloc, document, marks)?;
    if right {
        return Ok(mends);
    }
    let placed = mend_in_place(alloc, document)?;
    let cuts = cut_references(alloc, document, marks)?;
    let ends = end_texts(alloc, document)?;
    mends.extend_from_slice(&placed)?;
    mends.extend_from_slice(&cuts)?;
    mends.extend_from_slice(&ends)?;
    Ok(mends)
}

/// Whether a document is known to break no rule, and to have no marks of stories that are left out.
fn is_right(alloc: Global, document: &ColumnDocument, marks: &Marks) -> Result<bool, Memory>
    ensures { IfOk result (λ right. IsTrue right
        → IsSound document.now × (references (names_of_marks marks.now) document.now ≡ [])) }
{
    if !marks.are_none() {
        return Ok(false);
    }
    is_sound(alloc, document)
}

/// Mends items that stay where they are.
fn mend_in_place(alloc: Global, document: &mut ColumnDocument) -> Result<Vec<Mend>, Memory>
    ensures document { OnOk result (document.new ≡ mended_in_place document.old) }
    ensures mends { IfOk result (λ mends. mends.items ≡ mends_in_place document.old) }
    ensures err { OnErr result (KeepsAllButTexts document.old document.new) }
{
    let mut mends = normal_marks(alloc, document)?;
    let rows = plain_rows(alloc, document)?;
    mends.extend_from_slice(&rows)?;
    Ok(mends)
}
