// A text that others are cut out of. What is cut out at borders of runs is a window of its columns, and shares them.
ghost use Rattle.std.specs.Prelude.{◌≡◌, ◌≤◌, length, slice_range, IfOk, IfSome};
ghost use Rattle.run_lists.specs.Spread.{total_len};
ghost use Rattle.run_lists.specs.Places.{IsAtRunBegin};
ghost use Rattle.doc_columns.specs.Windows.{column_items, window_items, AreWhole, IsWindow, IsSpanOf};
ghost use Rattle.doc_columns.specs.Windows.{IsWalkOver, IsWalkBefore};

use crate::copying::{copy_part, into_rows};
use crate::own::OwnColumns;
use crate::window::{Span, Spans, Whole, Window};
use crate::{Columns, Parts, Walk};
use doc_bits::Memory;
use run_lists::{Cursor, Run, find};
use std::alloc::Global;
use std::marker::Model;
use std::rc::Rc;

/// A text whose columns are shared with texts that are cut out of it. Contracts see the list of its items.
#[derive(Drop)]
pub struct SharedText {
    whole: Rc<Whole>,
    walk: Walk,
}

impl Model for SharedText {
    ghost use Rattle.std.specs.Prelude.{List};
    ghost use Rattle.std.specs.Coded.{coded_list};
    ghost use Rattle.doc_model.specs.declared.item.Item.{Item};
    ghost use Rattle.doc_model.specs.contracts.item.Item as item;
    ghost use Rattle.doc_columns.specs.Windows.{column_items, IsWholeAt};

    ghost Value = { List Item };

    ghost coded = { coded_list item.the_row.coded };

    ghost view = { λ w. column_items w.whole.value };

    ghost invariant = { λ w. IsWholeAt w.whole.value w.walk };
}

impl SharedText {
    /// A text whose columns may be shared. `ends` are places where texts will begin or end, ascending: runs are
    /// ended there, so that these texts are windows.
    pub fn new(alloc: Global, text: Columns, ends: &[u32]) -> Result<SharedText, Memory>
        ensures { IfOk result (λ whole. whole ≡ text) }
    {
        let whole = whole_of(alloc, text.into_own()?, ends)?;
        Ok(SharedText {
            whole: Rc::new(alloc, whole)?,
            walk: Walk::new(),
        })
    }

    /// The text of the items from `from` to before `to`. It shares the columns where runs begin at both places; else it
    /// is copied. Texts one behind the other are found in one walk over the runs.
    pub fn cut(&mut self, alloc: Global, from: usize, to: usize) -> Result<Columns, Memory>
        requires ordered { from ≤ to }
        requires within { to ≤ length self.old }
        ensures same { self.new ≡ self.old }
        ensures cut { IfOk result (λ cut. cut ≡ slice_range self.old from to) }
    {
        let cut = cut_from(alloc, &self.whole, &mut self.walk, from, to)?;
        Ok(cut)
    }
}

/// The columns with a list of runs each.
fn whole_of(alloc: Global, own: OwnColumns, ends: &[u32]) -> Result<Whole, Memory>
    ensures whole { IfOk result AreWhole }
    ensures items { IfOk result (λ whole. column_items whole ≡ own) }
{
    let OwnColumns {
        units,
        chps,
        attachments,
    } = own;
    let chps = into_rows(alloc, chps, ends)?;
    let attachments = into_rows(alloc, attachments, ends)?;
    Ok(Whole {
        units,
        chps,
        attachments,
    })
}

/// The text of the items from `from` to before `to`. The walk goes there.
fn cut_from(
    alloc: Global,
    whole: &Rc<Whole>,
    walk: &mut Walk,
    from: usize,
    to: usize,
) -> Result<Columns, Memory>
    requires whole { AreWhole whole.now.value }
    requires walk { IsWalkOver whole.now.value walk.old }
    requires ordered { from ≤ to }
    requires within { to ≤ length (column_items whole.now.value) }
    ensures walk { IsWalkOver whole.now.value walk.new }
    ensures cut { IfOk result (λ cut. cut ≡ slice_range (column_items whole.now.value) from to) }
{
    let columns = whole.as_ref();
    let start = walk_before(columns, *walk, from);
    *walk = start;
    match spans(columns, walk, from, to) {
        Some(spans) => Ok(Columns::from_window(Window::new(alloc, whole.clone()?, spans))),
        None => Ok(Columns::from_own(copy_range(alloc, columns, start, from, to)?)),
    }
}

/// The walk, or one at the start where that is behind the place.
fn walk_before(whole: &Whole, walk: Walk, place: usize) -> Walk
    requires { IsWalkOver whole.now walk }
    ensures over { IsWalkOver whole.now result }
    ensures before { IsWalkBefore result place }
{
    if walk.chps.begin <= place && walk.attachments.begin <= place {
        return walk;
    }
    Walk::new()
}

/// The spans of a text, where runs begin at both places. The walk goes to its end.
fn spans(whole: &Whole, walk: &mut Walk, from: usize, to: usize) -> Option<Spans>
    requires whole { AreWhole whole.now }
    requires walk { IsWalkOver whole.now walk.old }
    requires before { IsWalkBefore walk.old from }
    requires ordered { from ≤ to }
    requires within { to ≤ length (column_items whole.now) }
    ensures walk { IsWalkOver whole.now walk.new }
    ensures window { IfSome result (IsWindow whole.now) }
    ensures items { IfSome result (λ spans.
        window_items whole.now spans ≡ slice_range (column_items whole.now) from to) }
{
    let Some(chps) = span(&whole.chps, &mut walk.chps, from, to) else {
        return None;
    };
    let Some(attachments) = span(&whole.attachments, &mut walk.attachments, from, to) else {
        return None;
    };
    Some(Spans {
        units: Span { from, to },
        chps,
        attachments,
    })
}

/// The runs from one that begins at `from` to before one that begins at `to`, or behind the last. The cursor goes
/// there.
fn span<T>(runs: &[Run<T>], cursor: &mut Cursor, from: usize, to: usize) -> Option<Span>
    requires at { IsAtRunBegin runs.now cursor.old }
    requires ahead { cursor.old.begin ≤ from }
    requires ordered { from ≤ to }
    requires within { to ≤ total_len runs.now }
    ensures at { IsAtRunBegin runs.now cursor.new }
    ensures span { IfSome result (IsSpanOf runs.now from to) }
{
    let Some(first) = border(runs, cursor, from) else {
        return None;
    };
    let Some(end) = border(runs, cursor, to) else {
        return None;
    };
    Some(Span {
        from: first,
        to: end,
    })
}

/// Which run begins at a place, if one does. The cursor goes to the run of the place.
fn border<T>(runs: &[Run<T>], cursor: &mut Cursor, place: usize) -> Option<usize>
    requires at { IsAtRunBegin runs.now cursor.old }
    requires ahead { cursor.old.begin ≤ place }
    requires within { place ≤ total_len runs.now }
    ensures at { IsAtRunBegin runs.now cursor.new }
    ensures ahead { cursor.new.begin ≤ place }
    ensures begins { IfSome result (λ run. (run ≡ cursor.new.run) × (cursor.new.begin ≡ place)) }
    ensures order { cursor.old.run ≤ cursor.new.run }
{
    let spot = find(runs, cursor.run, place - cursor.begin);
    *cursor = Cursor {
        run: spot.run,
        begin: place - spot.left,
    };
    if spot.left > 0 {
        return None;
    }
    Some(spot.run)
}

/// The items from `from`, which the walk is not behind, to before `to`, copied. Their maps are shared.
fn copy_range(
    alloc: Global,
    whole: &Whole,
    walk: Walk,
    from: usize,
    to: usize,
) -> Result<OwnColumns, Memory>
    requires whole { AreWhole whole.now }
    requires walk { IsWalkOver whole.now walk }
    requires before { IsWalkBefore walk from }
    requires ordered { from ≤ to }
    requires within { to ≤ length (column_items whole.now) }
    ensures { IfOk result (λ copy. copy ≡ slice_range (column_items whole.now) from to) }
{
    let parts = Parts {
        units: &whole.units,
        chps: &whole.chps,
        attachments: &whole.attachments,
    };
    let copy = copy_part(alloc, &parts, walk, from, to)?;
    Ok(copy)
}
