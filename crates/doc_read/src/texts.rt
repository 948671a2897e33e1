// The notes and the header texts, cut out of the whole text.
ghost use Rattle.std.specs.Prelude.{◌≡◌, ◌+◌, ◌≤◌, ◌<◌, ◌^◌};
ghost use Rattle.std.specs.Prelude.{[], length, slice_index, slice_range, IfOk};
ghost use Rattle.doc_read.specs.Texts.{AreCutFrom, AreCutsWithin};

use doc_bits::Memory;
use doc_columns::{ColumnTexts, Columns, SharedText};
use doc_parts::Cuts;
use std::alloc::Global;

/// The texts of a story that begins at a CP: so many, of which those without a cut are empty.
pub(crate) fn cut_columns(
    alloc: Global,
    whole: &mut SharedText,
    begin: u32,
    cuts: &Cuts,
    count: usize,
) -> Result<ColumnTexts, Memory>
    requires cuts { AreCutsWithin begin cuts.now (length whole.old) }
    requires few { count < 2 ^ 32 }
    ensures same { whole.new ≡ whole.old }
    ensures texts { IfOk result (AreCutFrom whole.old begin cuts.now count) }
{
    let mut texts = ColumnTexts::new(alloc);
    for k in 0..count {
        texts.add(cut_text(alloc, whole, begin, cuts, k)?)?;
    }
    Ok(texts)
}

/// Text `k` of the story, which is empty without a cut.
fn cut_text(
    alloc: Global,
    whole: &mut SharedText,
    begin: u32,
    cuts: &Cuts,
    k: usize,
) -> Result<Columns, Memory>
    requires cuts { AreCutsWithin begin cuts.now (length whole.old) }
    requires few { k < 2 ^ 32 }
    ensures same { whole.new ≡ whole.old }
    ensures there { IfOk result (λ text. k + 1 < length cuts.now
        → text ≡ slice_range whole.old (begin + slice_index cuts.now k) (begin + slice_index cuts.now (k + 1))) }
    ensures missing { IfOk result (λ text. length cuts.now ≤ k + 1 → text ≡ []) }
{
    if cuts.len() <= k + 1 {
        return Ok(Columns::new(alloc));
    }
    let from = begin as usize + cuts.get(k) as usize;
    let to = begin as usize + cuts.get(k + 1) as usize;
    let text = whole.cut(alloc, from, to)?;
    Ok(text)
}

/// Puts the places where the texts of a story that begins at a CP begin and end last.
pub(crate) fn push_ends(begin: u32, cuts: &Cuts, ends: &mut Vec<u32>) -> Result<(), Memory> {
    for k in 0..cuts.len() {
        ends.push(begin.saturating_add(cuts.get(k)))?;
    }
    Ok(())
}
