// Text that a reviser deleted, struck through.
ghost use Rattle.std.specs.Prelude.{◌≡◌, ◌≤◌, length, drop, Some, IfOk, OnOk, ⊤};
ghost use Rattle.doc_patch.specs.Places.{HasText, items_at};
ghost use Rattle.doc_mends.specs.Mends.{all_struck, struck_ranges, strikes, kept_ranges, AreRanges};
ghost use Rattle.doc_mends.specs.Mends.{striking as modifier_of_strike};
ghost use Rattle.doc_mends.specs.Batches.{RangesAscend};
ghost use Rattle.doc_mends.specs.Striking.{text_struck};

use crate::batches::{Batch, first_batch};
use crate::judging::{check, striking};
use crate::mends::{DeletedRange, Mended};
use crate::struck_runs::strike_text;
use doc_bits::{Memory, drop_then};
use doc_columns::{ColumnDocument, Columns};
use doc_patch::{find_text, put_text};
use prop_map::Modifier;
use std::alloc::Global;

/// Strikes the ranges of a document that a reviser deleted. A range stays as it is where the properties of one of its
/// items would be printed in more than 255 bytes then. The ranges are those of the document that is given.
pub fn strike_deleted(
    alloc: Global,
    document: ColumnDocument,
    ranges: &[DeletedRange],
) -> Result<Mended, Memory>
    requires { AreRanges document ranges.now }
    ensures document { IfOk result
        (λ mended. mended.document ≡ all_struck (struck_ranges document ranges.now) document) }
    ensures mends { IfOk result (λ mended. mended.mends.items ≡ strikes document ranges.now) }
    ensures kept { IfOk result (λ mended. mended.kept.items ≡ kept_ranges document ranges.now) }
{
    let judged = match check(alloc, &document, ranges) {
        Ok(judged) => judged,
        Err(fault) => return drop_then(document, Err(fault)),
    };
    let document = strike_ranges(alloc, document, &judged.struck)?;
    Ok(Mended {
        document,
        mends: judged.mends,
        kept: judged.kept,
    })
}

/// The document with these ranges struck.
fn strike_ranges(
    alloc: Global,
    document: ColumnDocument,
    ranges: &[DeletedRange],
) -> Result<ColumnDocument, Memory>
    requires { AreRanges document ranges.now }
    ensures { IfOk result (λ made. made ≡ all_struck ranges.now document) }
{
    let mut made = document;
    match strike_in_place(alloc, &mut made, ranges) {
        Ok(()) => Ok(made),
        Err(fault) => drop_then(made, Err(fault)),
    }
}

/// Strikes these ranges. Ranges of one text that ascend are struck in one pass over its runs.
fn strike_in_place(
    alloc: Global,
    document: &mut ColumnDocument,
    ranges: &[DeletedRange],
) -> Result<(), Memory>
    requires { AreRanges document.old ranges.now }
    ensures { OnOk result (document.new ≡ all_struck ranges.now document.old) }
{
    let striking = striking(alloc)?;
    let mut left = ranges;
    while left.len() > 0 {
        let batch = first_batch(left);
        strike_batch(alloc, document, &batch, &striking)?;
        left = behind(left, batch.ranges.len());
    }
    Ok(())
}

/// The ranges behind the first so many.
fn behind(ranges: &[DeletedRange], count: usize) -> &[DeletedRange]
    requires { count ≤ length ranges.now }
    ensures { result.now ≡ drop count ranges.now }
{
    &ranges[count..]
}

/// Strikes ranges of one text.
fn strike_batch(
    alloc: Global,
    document: &mut ColumnDocument,
    batch: &Batch<'_>,
    striking: &Modifier,
) -> Result<(), Memory>
    requires there { HasText document.old batch.now.story (λ _. ⊤) }
    requires ranges { AreRanges document.old batch.now.ranges.now }
    requires ascend { RangesAscend batch.now.story 0 batch.now.ranges.now }
    requires striking { striking.now ≡ modifier_of_strike }
    ensures { OnOk result (document.new ≡ all_struck batch.now.ranges.now document.old) }
{
    let made = struck_text(alloc, document, batch, striking)?;
    put_text(document, batch.story, made);
    Ok(())
}

/// The text of these ranges with them struck.
fn struck_text(
    alloc: Global,
    document: &ColumnDocument,
    batch: &Batch<'_>,
    striking: &Modifier,
) -> Result<Columns, Memory>
    requires there { HasText document.now batch.now.story (λ _. ⊤) }
    requires ranges { AreRanges document.now batch.now.ranges.now }
    requires ascend { RangesAscend batch.now.story 0 batch.now.ranges.now }
    requires striking { striking.now ≡ modifier_of_strike }
    ensures { IfOk result (λ made.
        made ≡ text_struck batch.now.ranges.now (items_at document.now batch.now.story)) }
{
    match find_text(document, batch.story) {
        None => Ok(Columns::new(alloc)),
        Some(text) => Ok(strike_text(alloc, text, batch, striking)?),
    }
}
