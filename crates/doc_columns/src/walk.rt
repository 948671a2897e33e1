// A walk over the columns of a text, run by run.
ghost use Rattle.std.specs.Prelude.{◌≡◌, ℕ, ◌+◌, ◌-◌, ◌^◌, ◌<◌, ◌≤◌, length, slice_get, Some, None, IsSome};
ghost use Rattle.run_lists.specs.Spread.{expanded, total_len};
ghost use Rattle.run_lists.specs.Places.{IsAtRunBegin};
ghost use Rattle.doc_model.specs.declared.item.Item.{Item};
ghost use Rattle.doc_columns.specs.declared.attached.Attached as stands;
ghost use Rattle.doc_columns.specs.Attached.{attached_of};
ghost use Rattle.doc_columns.specs.Walks.{items_in, AreFullParts, IsColumnWalk};

use crate::{Attached, Columns};
use prop_map::PropMap;
use run_lists::{Cursor, Run, value_until};

/// The columns of a text.
#[derive(Drop)]
pub struct Parts<'a> {
    pub units: &'a [u16],
    pub chps: &'a [Run<PropMap>],
    pub attachments: &'a [Run<Attached>],
}

impl Columns {
    /// The three columns.
    pub fn parts(&self) -> Parts<'_>
        ensures parts { AreFullParts result }
        ensures items { items_in result ≡ self.now }
    {
        let _len = self.len();
        Parts {
            units: self.units(),
            chps: self.chps(),
            attachments: self.attachments(),
        }
    }
}

/// Where a walk is in each list of runs.
#[derive(Clone, Copy)]
pub struct Walk {
    pub chps: Cursor,
    pub attachments: Cursor,
}

impl Walk {
    /// At the start.
    pub fn new() -> Walk
        ensures { result ≡ record { chps = record { run = 0; begin = 0 }; attachments = record { run = 0; begin = 0 } } }
    {
        Walk {
            chps: Cursor::new(),
            attachments: Cursor::new(),
        }
    }
}

/// What items of a text have in common: their properties and what is beside them. They end at a place.
#[derive(Drop)]
pub struct Alike<'a> {
    pub chp: &'a PropMap,
    pub attached: &'a Attached,
    pub end: usize,
}

/// What the items from a place on have in common, which the walk is not behind and goes to.
pub fn alike_from<'a>(parts: &Parts<'a>, walk: &mut Walk, place: usize) -> Alike<'a>
    requires parts { AreFullParts parts.now }
    requires walk { IsColumnWalk parts.now walk.old place }
    requires within { place < length parts.now.units.now }
    ensures walk { IsColumnWalk parts.now walk.new place }
    ensures some { place < result.end }
    ensures within { result.end ≤ length parts.now.units.now }
    ensures chps { (k : ℕ) (item : Item) → place ≤ k → k < result.end
        → slice_get (items_in parts.now) k ≡ Some item → item.chp ≡ result.chp.now }
    ensures attachments { (k : ℕ) (item : Item) → place ≤ k → k < result.end
        → slice_get (items_in parts.now) k ≡ Some item → attached_of item ≡ result.attached.now }
{
    let (chp, chps_end) = value_until(parts.chps, &mut walk.chps, place);
    let (attached, attachments_end) = value_until(parts.attachments, &mut walk.attachments, place);
    Alike {
        chp,
        attached,
        end: chps_end.min(attachments_end),
    }
}

/// Where the paragraph of a place ends: behind the first mark, or at the end of the text, which has `len` units.
pub fn paragraph_end(
    attachments: &[Run<Attached>],
    marks: &mut Cursor,
    place: usize,
    len: usize,
) -> usize
    requires long { total_len attachments.now ≡ len }
    requires few { len < 2 ^ 32 }
    requires at { IsAtRunBegin attachments.now marks.old }
    requires ahead { marks.old.begin ≤ place }
    requires within { place < len }
    ensures at { IsAtRunBegin attachments.now marks.new }
    ensures ahead { marks.new.begin < result }
    ensures some { place < result }
    ensures within { result ≤ len }
    ensures inside { (k : ℕ) (attached : stands.Attached) → place ≤ k → k + 1 < result
        → slice_get (expanded attachments.now) k ≡ Some attached → attached.mark ≡ None }
    ensures ends { result < len → (attached : stands.Attached)
        → slice_get (expanded attachments.now) (result - 1) ≡ Some attached → IsSome attached.mark }
{
    let mut at = place;
    while at < len {
        let (attached, end) = value_until(attachments, marks, at);
        if attached.mark.is_some() {
            return at + 1;
        }
        at = end;
    }
    len
}
