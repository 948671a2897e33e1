// The runs of a text whose ranges are struck, made in one pass.
ghost use Rattle.std.specs.Prelude.{◌≡◌, ◌^◌, ◌<◌, ◌≤◌, ◌++◌, length, slice_range, All, IfOk, OnOk};
ghost use Rattle.run_lists.specs.Spread.{expanded, total_len};
ghost use Rattle.run_lists.specs.Places.{IsAtRunBegin};
ghost use Rattle.doc_patch.specs.Places.{HasRange};
ghost use Rattle.doc_mends.specs.Mends.{striking as modifier_of_strike};
ghost use Rattle.doc_mends.specs.Batches.{RangesAscend};
ghost use Rattle.doc_mends.specs.Striking.{chps_struck, text_struck, part_value as value_in, part_values};
ghost use Rattle.doc_mends.specs.Striking.{IsRangeWithin};

use crate::batches::{Batch, range_at};
use doc_bits::Memory;
use doc_columns::Columns;
use prop_map::{Modifier, PropMap};
use run_lists::{Cursor, Run, Runs, copy_runs, value_until};
use std::alloc::Global;

/// A part of a text, from a place to before another, and whether it is struck.
#[derive(Clone, Copy)]
pub(crate) struct Part {
    pub(crate) from: usize,
    pub(crate) to: usize,
    pub(crate) struck: bool,
}

/// A text with ranges of it struck.
pub(crate) fn strike_text(
    alloc: Global,
    text: &Columns,
    batch: &Batch<'_>,
    striking: &Modifier,
) -> Result<Columns, Memory>
    requires ranges { All (λ range. HasRange range.from range.to text.now) batch.now.ranges.now }
    requires ascend { RangesAscend batch.now.story 0 batch.now.ranges.now }
    requires striking { striking.now ≡ modifier_of_strike }
    ensures { IfOk result (λ made. made ≡ text_struck batch.now.ranges.now text.now) }
{
    let len = text.len();
    let mut units = Vec::with_capacity(alloc, len)?;
    units.extend_from_slice(text.units())?;
    let chps = strike_chps(alloc, text.chps(), len, batch, striking)?;
    let attachments = copy_runs(alloc, text.attachments(), &mut Cursor::new(), 0, len)?;
    Ok(Columns::from_parts(units, chps, attachments))
}

/// Properties with ranges of them struck.
fn strike_chps(
    alloc: Global,
    runs: &[Run<PropMap>],
    len: usize,
    batch: &Batch<'_>,
    striking: &Modifier,
) -> Result<Runs<PropMap>, Memory>
    requires len { total_len runs.now ≡ len }
    requires few { len < 2 ^ 32 }
    requires ranges { All (IsRangeWithin len) batch.now.ranges.now }
    requires ascend { RangesAscend batch.now.story 0 batch.now.ranges.now }
    requires striking { striking.now ≡ modifier_of_strike }
    ensures { IfOk result (λ made. made ≡ chps_struck batch.now.ranges.now (expanded runs.now)) }
{
    let mut made = Runs::new(alloc);
    let mut cursor = Cursor::new();
    let mut at = 0;
    for k in 0..batch.ranges.len() {
        let range = range_at(batch.ranges, k);
        let kept = Part {
            from: at,
            to: range.from,
            struck: false,
        };
        let struck = Part {
            from: range.from,
            to: range.to,
            struck: true,
        };
        add_part(alloc, runs, &mut cursor, kept, striking, &mut made)?;
        add_part(alloc, runs, &mut cursor, struck, striking, &mut made)?;
        at = range.to;
    }
    let rest = Part {
        from: at,
        to: len,
        struck: false,
    };
    add_part(alloc, runs, &mut cursor, rest, striking, &mut made)?;
    Ok(made)
}

/// Appends a part of the properties, run by run. The cursor is not behind the part, and goes to its end.
fn add_part(
    alloc: Global,
    runs: &[Run<PropMap>],
    cursor: &mut Cursor,
    part: Part,
    striking: &Modifier,
    made: &mut Runs<PropMap>,
) -> Result<(), Memory>
    requires at { IsAtRunBegin runs.now cursor.old }
    requires ahead { cursor.old.begin ≤ part.from }
    requires ordered { part.from ≤ part.to }
    requires within { part.to ≤ total_len runs.now }
    requires few { total_len runs.now < 2 ^ 32 }
    requires long { length made.old ≡ part.from }
    requires striking { striking.now ≡ modifier_of_strike }
    ensures at { OnOk result (IsAtRunBegin runs.now cursor.new) }
    ensures ahead { OnOk result (cursor.new.begin ≤ part.to) }
    ensures long { OnOk result (length made.new ≡ part.to) }
    ensures made { OnOk result (made.new
        ≡ made.old ++ part_values part.struck (slice_range (expanded runs.now) part.from part.to)) }
{
    let mut at = part.from;
    while at < part.to {
        let (chp, run_end) = value_until(runs, cursor, at);
        let end = run_end.min(part.to);
        let value = part_value(alloc, chp, part.struck, striking)?;
        made.add((end - at) as u32, value)?;
        at = end;
    }
    Ok(())
}

/// What becomes of properties in a part.
fn part_value(
    alloc: Global,
    chp: &PropMap,
    struck: bool,
    striking: &Modifier,
) -> Result<PropMap, Memory>
    requires { striking.now ≡ modifier_of_strike }
    ensures { IfOk result (λ made. made ≡ value_in struck chp.now) }
{
    if !struck {
        let copy = chp.copy(alloc)?;
        return Ok(copy);
    }
    let made = striking.on_char(alloc, chp)?;
    Ok(made)
}
