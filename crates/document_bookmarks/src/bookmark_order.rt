// [MS-DOC] bookmarks: a name over a range of the main text, their order, and where a splice moves them.
ghost use Rattle.std.specs.Prelude.{◌≡◌, ℕ, ◌+◌, ◌-◌, ◌<◌, ◌≤◌, ◌^◌, List, [], ◌∷◌, ◌++◌, map, take, drop};
ghost use Rattle.std.specs.Prelude.{length, slice_get, slice_range, All, IfOk, OnOk, OnErr, IsTrue, ◌↔◌};
ghost use Rattle.std.specs.List.{splice};
ghost use Rattle.document_bookmarks.specs.Order.{in_order};
ghost use Rattle.document_bookmarks.specs.Bookmarks.{bookmark_cmp, end_moved, moved_bookmark, moved_bookmarks};
ghost use Rattle.document_bookmarks.specs.Bookmarks.{IsFormedBookmark};
ghost use Rattle.document_bookmarks.specs.Names.{is_named};

use crate::names::Name;
use doc_bits::Memory;
use std::cmp::Ordering;

/// A name over a range of the main text: its units, the places where the range begins and ends, and its flags
/// ([MS-DOC] BKC).
#[derive(Drop)]
pub struct Bookmark {
    pub name: Name,
    pub from: u32,
    pub to: u32,
    pub flags: u16,
}

impl Bookmark {
    /// A copy of the bookmark, which shares its name.
    pub fn copy(&self) -> Result<Bookmark, Memory>
        ensures { IfOk result (λ copy. copy ≡ self.now) }
    {
        Ok(Bookmark {
            name: self.name.copy()?,
            from: self.from,
            to: self.to,
            flags: self.flags,
        })
    }

    /// Whether both have the same fields.
    pub fn equal(&self, other: &Bookmark) -> bool
        ensures { IsTrue result ↔ self.now ≡ other.now }
    {
        self.from == other.from
            && self.to == other.to
            && self.flags == other.flags
            && self.name.as_slice() == other.name.as_slice()
    }

    /// Whether it has this name.
    pub fn is_named(&self, name: &[u16]) -> bool
        ensures { result ≡ is_named name.now self.now }
    {
        self.name.as_slice().cmp(name).is_eq()
    }

    /// Whether its range is within a main text of `len` units, and its name has 1 to 255 units.
    pub fn is_formed(&self, len: usize) -> bool
        ensures { IsTrue result ↔ IsFormedBookmark len self.now }
    {
        let units = self.name.as_slice().len();
        self.from <= self.to && self.to as usize <= len && 1 <= units && units <= 255
    }
}

/// Where a bookmark is beside another.
pub(crate) fn compare(one: &Bookmark, other: &Bookmark) -> Ordering
    ensures { result ≡ bookmark_cmp one.now other.now }
{
    one.from
        .cmp(&other.from)
        .then(one.to.cmp(&other.to))
        .then(one.name.as_slice().cmp(other.name.as_slice()))
        .then(one.flags.cmp(&other.flags))
}

/// Puts a list in order. It takes no memory.
pub(crate) fn sort(list: &mut Vec<Bookmark>)
    ensures { list.new.items ≡ in_order bookmark_cmp list.old.items }
{
    list.sort_unstable_by(
        |a: &Bookmark, b: &Bookmark| -> Ordering
            ensures { result ≡ bookmark_cmp a.now b.now }
        { compare(a, b) },
    );
}

/// An end after a splice of a text of so many items.
fn moved_end(from: usize, to: usize, count: usize, len: usize, end: u32) -> u32
    requires ordered { from ≤ to }
    requires within { to ≤ len }
    requires few { len + count < 2 ^ 32 + (to - from) }
    requires end { end ≤ len }
    ensures { result ≡ end_moved from to count end }
{
    let place = end as usize;
    if place <= from {
        end
    } else if place < to {
        from as u32
    } else {
        (place - (to - from) + count) as u32
    }
}

/// Moves the ends of a bookmark.
fn move_bookmark(bookmark: &mut Bookmark, from: usize, to: usize, count: usize, len: usize)
    requires ordered { from ≤ to }
    requires within { to ≤ len }
    requires few { len + count < 2 ^ 32 + (to - from) }
    requires start { bookmark.old.from ≤ len }
    requires end { bookmark.old.to ≤ len }
    ensures { bookmark.new ≡ moved_bookmark from to count bookmark.old }
{
    bookmark.from = moved_end(from, to, count, len, bookmark.from);
    bookmark.to = moved_end(from, to, count, len, bookmark.to);
}

/// Moves the ends of each, and puts the list in order again.
pub(crate) fn move_all(list: &mut Vec<Bookmark>, from: usize, to: usize, count: usize, len: usize)
    requires ordered { from ≤ to }
    requires within { to ≤ len }
    requires few { len + count < 2 ^ 32 + (to - from) }
    requires starts { All (λ b. b.from ≤ len) list.old.items }
    requires ends { All (λ b. b.to ≤ len) list.old.items }
    ensures { list.new.items ≡ moved_bookmarks from to count list.old.items }
{
    for bookmark in list.iter_mut() {
        move_bookmark(bookmark, from, to, count, len);
    }
    sort(list);
}
