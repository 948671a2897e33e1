// Texts that are cut out of one text.
ghost use Rattle.std.specs.Prelude.{◌≡◌, ◌≤◌, length};
ghost use Rattle.doc_model.specs.Document.{IsFormedText};

use crate::scripted::{EACH, is_edited};
use doc_bits::Memory;
use doc_columns::{Columns, SharedText};
use plain_doc::{Document, Item};
use std::alloc::Global;
use std::test::Fail;

/// Places where runs are ended, so that some of the cuts below are windows. Others are inside runs.
const ENDS: [u32; 3] = [2, 5, 11];

/// How many items a cut has, where there are so many.
const CUT: usize = 3;

/// Whether a cut is a range, and so is its copy.
fn is_same(alloc: Global, cut: &Columns, range: &Columns) -> Result<bool, Memory> {
    let copy = cut.copy(alloc, 0, cut.len())?;
    let same = cut.equal(range) && copy.equal(range);
    drop(copy);
    Ok(same)
}

/// Whether a cut is a range of a text, and so is its copy.
fn is_range(
    alloc: Global,
    cut: &Columns,
    text: &Columns,
    from: usize,
    to: usize,
) -> Result<bool, Memory>
    requires order { from ≤ to }
    requires within { to ≤ length text.now }
{
    let range = text.copy(alloc, from, to)?;
    let same = is_same(alloc, cut, &range);
    drop(range);
    same
}

/// Whether each cut of a text is its range, and so is a copy of the cut.
fn are_ranges(alloc: Global, text: &Columns, whole: &mut SharedText) -> Result<bool, Memory>
    requires { whole.old ≡ text.now }
{
    let len = text.len();
    for from in 0..len {
        let to = len.min(from + CUT);
        let cut = whole.cut(alloc, from, to)?;
        let same = is_range(alloc, &cut, text, from, to);
        drop(cut);
        if !same? {
            return Ok(false);
        }
    }
    Ok(true)
}

/// Whether a text of these items is cut so out of another one.
fn is_cut_out(alloc: Global, items: &[Item], text: &Columns) -> Result<bool, Memory>
    requires formed { IsFormedText items.now }
    requires same { text.now ≡ items.now }
{
    let same = Columns::from_items(alloc, items)?;
    let mut whole = SharedText::new(alloc, same, &ENDS)?;
    let cut = are_ranges(alloc, text, &mut whole);
    drop(whole);
    cut
}

/// Whether a text of these items is cut so.
fn is_cut(alloc: Global, items: &[Item]) -> Result<bool, Memory>
    requires { IsFormedText items.now }
{
    let text = Columns::from_items(alloc, items)?;
    let cut = is_cut_out(alloc, items, &text);
    drop(text);
    cut
}

#[test]
fn texts_are_cut_out_of_one(rt: HostRuntime) -> Result<(), Fail> {
    let alloc = rt.alloc();
    let cut = is_edited(alloc, EACH, |plain: &Document| -> Result<bool, Memory> {
        let _len = plain.main.len();
        is_cut(alloc, plain.main.as_slice())
    });
    assert!(rt; cut?);
    Ok(())
}
