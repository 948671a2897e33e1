// What a reviser deleted of a document is struck through.
ghost use Rattle.std.specs.Prelude.{◌≡◌, ◌++◌, map, IfOk, OnOk};
ghost use Rattle.doc_mends.specs.declared.mends.Mend.TheVariants.{KeepDeleted};
ghost use Rattle.deleted_text.specs.Ranges.{document_ranges};
ghost use Rattle.deleted_text.specs.Strikes.{IsStruck};

use crate::ranges::{StoryBegins, deleted_ranges};
use doc_bits::Memory;
use doc_columns::ColumnDocument;
use doc_mends::{DeletedRange, Mend, Mended, strike_deleted};
use std::alloc::Global;

/// Strikes through what a reviser deleted of a document, by flags of its CPs. Where memory runs out the document may be
/// any.
pub fn strike_text(
    alloc: Global,
    document: &mut ColumnDocument,
    begins: StoryBegins,
    flags: &[bool],
) -> Result<Vec<Mend>, Memory>
    ensures { IfOk result (λ mends.
        IsStruck (document_ranges begins flags.now document.old) document.old document.new mends.items) }
{
    let ranges = deleted_ranges(alloc, document, begins, flags)?;
    if ranges.len() == 0 {
        return Ok(Vec::new(alloc));
    }
    let copy = document.copy(alloc)?;
    let Mended {
        document: struck,
        mut mends,
        kept,
    } = strike_deleted(alloc, copy, &ranges)?;
    *document = struck;
    push_kept(&mut mends, &kept)?;
    Ok(mends)
}

/// Appends the mends of ranges that stay as they are.
fn push_kept(mends: &mut Vec<Mend>, kept: &[DeletedRange]) -> Result<(), Memory>
    ensures { OnOk result (mends.new.items ≡ mends.old.items ++ map KeepDeleted kept.now) }
{
    for k in 0..kept.len() {
        mends.push(Mend::KeepDeleted(kept[k]))?;
    }
    Ok(())
}
