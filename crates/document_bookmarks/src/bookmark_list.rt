// The bookmarks of a document. After want of memory the list is what it was.
ghost use Rattle.std.specs.Prelude.{◌≡◌, ℕ, ◌+◌, ◌-◌, ◌^◌, ◌<◌, ◌≤◌, List, [], ◌∷◌, ◌++◌, length, take, drop};
ghost use Rattle.std.specs.Prelude.{slice_get, slice_set, slice_range, Some, All, IsTrue, false, ◌↔◌, IfOk, OnOk};
ghost use Rattle.std.specs.Prelude.{OnErr, not};
ghost use Rattle.std.specs.List.{splice, filter, count_by};
ghost use Rattle.std.specs.List.Sorted.{IsSorted, IsPermutation};
ghost use Rattle.doc_bits.specs.Rules.{LeastOrNone};
ghost use Rattle.document_bookmarks.specs.Order.{put_in, in_order};
ghost use Rattle.document_bookmarks.specs.Bookmarks.{bookmark_cmp, HasFileNumbers, IsFormedBookmark, AreFormedBookmarks};
ghost use Rattle.document_bookmarks.specs.Bookmarks.{moved_bookmarks};
ghost use Rattle.document_bookmarks.specs.Names.{name_cmp, is_named, AreApart, HasSameName};

use crate::bookmark_order::{Bookmark, compare, move_all, sort};
use doc_bits::{Memory, splice_list};
use std::alloc::Global;
use std::cmp::Ordering;
use std::collections::BTreeSet;
use std::marker::Model;
use std::mem;

/// A list of bookmarks, which may know that their names differ.
#[derive(Drop)]
pub struct Bookmarks {
    items: Vec<Bookmark>,
    /// No name is there twice. Where it is false nothing is known.
    apart: bool,
}

impl Model for Bookmarks {
    ghost use Rattle.std.specs.Prelude.{List};
    ghost use Rattle.document_bookmarks.specs.declared.bookmark_order.Bookmark.{Bookmark};
    ghost use Rattle.document_bookmarks.specs.Names.{IsBookmarkList};

    ghost Value = { List Bookmark };

    ghost view = { λ b. b.items.items };

    ghost invariant = { λ b. IsBookmarkList b.items.items b.apart };
}

impl Bookmarks {
    pub fn new(alloc: Global) -> Bookmarks
        ensures { result ≡ [] }
    {
        Bookmarks {
            items: Vec::new(alloc),
            apart: true,
        }
    }

    /// These bookmarks, in order. Whether their names differ is found out.
    pub fn of(mut items: Vec<Bookmark>) -> Bookmarks
        requires { All HasFileNumbers items.items }
        ensures { result ≡ in_order bookmark_cmp items.items }
    {
        sort_names(&mut items);
        let apart = neighbours_differ(&items);
        sort(&mut items);
        Bookmarks { items, apart }
    }

    /// The number of bookmarks. The numbers of each have the bits that a file gives them.
    pub fn len(&self) -> usize
        ensures len { result ≡ length self.now }
        ensures numbers { All HasFileNumbers self.now }
    {
        self.items.len()
    }

    pub fn get(&self, i: usize) -> &Bookmark
        requires { i < length self.now }
        ensures { slice_get self.now i ≡ Some result.now }
    {
        &self.items[i]
    }

    /// Puts a bookmark last. Its name is looked for among the others.
    pub fn add(&mut self, bookmark: Bookmark) -> Result<(), Memory>
        requires { length self.old + 1 < 2 ^ 32 }
        ensures ok { OnOk result (self.new ≡ self.old ++ bookmark ∷ []) }
        ensures err { OnErr result (self.new ≡ self.old) }
    {
        let name = bookmark.name.as_slice();
        have_sixteen_bits(name);
        let apart = stays_apart(self.apart, &self.items, name);
        self.items.push(bookmark)?;
        self.apart = apart;
        Ok(())
    }

    /// Puts a bookmark into a list that is in order, in its place.
    pub fn put(&mut self, bookmark: Bookmark) -> Result<(), Memory>
        requires few { length self.old + 1 < 2 ^ 32 }
        requires sorted { IsSorted bookmark_cmp self.old }
        ensures ok { OnOk result (self.new ≡ put_in bookmark_cmp bookmark self.old) }
        ensures err { OnErr result (self.new ≡ self.old) }
    {
        let name = bookmark.name.as_slice();
        have_sixteen_bits(name);
        let apart = stays_apart(self.apart, &self.items, name);
        let place = place_of(&bookmark, &self.items);
        self.items.insert(place, bookmark)?;
        self.apart = apart;
        Ok(())
    }

    /// Puts the list in order, and finds out whether the names differ. It takes no memory.
    pub fn arrange(&mut self)
        ensures { self.new ≡ in_order bookmark_cmp self.old }
    {
        sort_names(&mut self.items);
        let apart = neighbours_differ(&self.items);
        sort(&mut self.items);
        self.apart = apart;
    }

    /// The bookmarks from `from` to before `to`.
    pub fn copy(&self, alloc: Global, from: usize, to: usize) -> Result<Bookmarks, Memory>
        requires ordered { from ≤ to }
        requires within { to ≤ length self.now }
        ensures { IfOk result (λ copy. copy ≡ slice_range self.now from to) }
    {
        let range = &self.items[from..to];
        let mut items = Vec::with_capacity(alloc, range.len())?;
        for bookmark in range {
            items.push(bookmark.copy()?)?;
        }
        Ok(Bookmarks {
            items,
            apart: self.apart,
        })
    }

    /// Puts `fresh` in place of the bookmarks from `from` to before `to`. Each is moved once.
    pub fn splice(&mut self, from: usize, to: usize, fresh: Bookmarks) -> Result<(), Memory>
        requires ordered { from ≤ to }
        requires within { to ≤ length self.old }
        requires few { length self.old + length fresh < 2 ^ 32 + (to - from) }
        ensures ok { OnOk result (self.new ≡ splice self.old from to fresh) }
        ensures err { OnErr result (self.new ≡ self.old) }
    {
        splice_list(&mut self.items, from, to, fresh.items)?;
        self.apart = false;
        Ok(())
    }

    /// Puts a bookmark in place of another, and hands back the old one. It takes no memory.
    pub fn replace(&mut self, i: usize, bookmark: Bookmark) -> Bookmark
        requires within { i < length self.old }
        ensures old { slice_get self.old i ≡ Some result }
        ensures new { self.new ≡ slice_set self.old i bookmark }
    {
        have_sixteen_bits(bookmark.name.as_slice());
        self.apart = false;
        mem::replace(&mut self.items[i], bookmark)
    }

    /// Takes those of a name away. It takes no memory.
    pub fn remove(&mut self, name: &[u16])
        ensures { self.new ≡ filter (λ b. not (is_named name.now b)) self.old }
    {
        self.items.retain(
            |bookmark: &Bookmark| -> bool
                ensures { result ≡ not (is_named name.entry.now bookmark.now) }
            { !bookmark.is_named(name) },
        );
    }

    /// Moves the ends with a splice of a main text of `len` units, where `count` come in place of
    /// those from `from` to before `to`. It takes no memory.
    pub fn follow(&mut self, from: usize, to: usize, count: usize, len: usize)
        requires ordered { from ≤ to }
        requires within { to ≤ len }
        requires few { len + count < 2 ^ 32 + (to - from) }
        requires starts { All (λ b. b.from ≤ len) self.old }
        requires ends { All (λ b. b.to ≤ len) self.old }
        ensures { self.new ≡ moved_bookmarks from to count self.old }
    {
        move_all(&mut self.items, from, to, count, len);
    }

    /// Whether each fits into a main text of `len` units, and they are in order.
    pub fn are_formed(&self, len: usize) -> bool
        ensures { IsTrue result ↔ AreFormedBookmarks len self.now }
    {
        all_formed(&self.items, len) && is_in_order(&self.items)
    }

    /// Where the first bookmark of the list begins whose name an earlier one has. Each name is compared with all
    /// before it; it takes no memory.
    pub fn same_name(&self) -> Option<u32>
        ensures { LeastOrNone (HasSameName self.now) result }
    {
        if self.apart {
            return None;
        }
        repeated_name(&self.items)
    }

    /// The same, where each name is looked for in a tree of those before it.
    pub fn find_same_name(&self, alloc: Global) -> Result<Option<u32>, Memory>
        ensures { IfOk result (LeastOrNone (HasSameName self.now)) }
    {
        if self.apart {
            return Ok(None);
        }
        find_repeated_name(alloc, &self.items)
    }

    /// Whether both have the same bookmarks.
    pub fn equal(&self, other: &Bookmarks) -> bool
        ensures { IsTrue result ↔ self.now ≡ other.now }
    {
        if self.items.len() != other.items.len() {
            return false;
        }
        for i in 0..self.items.len() {
            if !self.items[i].equal(&other.items[i]) {
                return false;
            }
        }
        true
    }
}

/// The units of a name have 16 bits.
fn have_sixteen_bits(units: &[u16])
    ensures { All (λ unit. unit < 2 ^ 16) units.now }
{}

/// Whether one of the bookmarks has a name.
fn has_name(list: &[Bookmark], name: &[u16]) -> bool
    ensures there { IsTrue result → 0 < count_by (is_named name.now) list.now }
    ensures none { result ≡ false → count_by (is_named name.now) list.now ≡ 0 }
{
    for bookmark in list {
        if bookmark.is_named(name) {
            return true;
        }
    }
    false
}

/// Whether names that differ still do with one more.
fn stays_apart(apart: bool, list: &[Bookmark], name: &[u16]) -> bool
    ensures before { IsTrue result → IsTrue apart }
    ensures none { IsTrue result → count_by (is_named name.now) list.now ≡ 0 }
{
    apart && !has_name(list, name)
}

/// Where the first bookmark begins whose name one before it has.
fn repeated_name(list: &[Bookmark]) -> Option<u32>
    ensures { LeastOrNone (HasSameName list.now) result }
{
    for i in 0..list.len() {
        let bookmark = &list[i];
        if has_name(&list[..i], bookmark.name.as_slice()) {
            return Some(bookmark.from);
        }
    }
    None
}

/// The same. The names so far are kept in order, so that no earlier bookmark is searched for.
fn find_repeated_name(alloc: Global, list: &[Bookmark]) -> Result<Option<u32>, Memory>
    ensures { IfOk result (LeastOrNone (HasSameName list.now)) }
{
    let mut names: BTreeSet<&[u16]> = BTreeSet::new(alloc);
    for bookmark in list {
        if !names.insert(bookmark.name.as_slice())? {
            return Ok(Some(bookmark.from));
        }
    }
    Ok(None)
}

/// Whether each bookmark fits into a main text of `len` units.
fn all_formed(list: &[Bookmark], len: usize) -> bool
    ensures { IsTrue result ↔ All (IsFormedBookmark len) list.now }
{
    for i in 0..list.len() {
        if !list[i].is_formed(len) {
            return false;
        }
    }
    true
}

/// How many bookmarks are before the first one that a bookmark does not come behind.
fn place_of(bookmark: &Bookmark, list: &[Bookmark]) -> usize
    ensures within { result ≤ length list.now }
    ensures put { take result list.now ++ (bookmark.now ∷ drop result list.now)
        ≡ put_in bookmark_cmp bookmark.now list.now }
{
    for i in 0..list.len() {
        if compare(bookmark, &list[i]).is_le() {
            return i;
        }
    }
    list.len()
}

/// Whether no bookmark comes before the one before it.
fn is_in_order(list: &[Bookmark]) -> bool
    ensures { IsTrue result ↔ IsSorted bookmark_cmp list.now }
{
    for i in 1..list.len() {
        if compare(&list[i], &list[i - 1]).is_lt() {
            return false;
        }
    }
    true
}

/// Puts a list in the order of the names. It takes no memory.
pub fn sort_names(list: &mut Vec<Bookmark>)
    ensures moved { IsPermutation list.old.items list.new.items }
    ensures sorted { IsSorted name_cmp list.new.items }
{
    list.sort_unstable_by(
        |a: &Bookmark, b: &Bookmark| -> Ordering
            ensures { result ≡ name_cmp a.now b.now }
        { a.name.as_slice().cmp(b.name.as_slice()) },
    );
}

/// Whether no bookmark has the name of the one before it, in the order of the names.
fn neighbours_differ(list: &[Bookmark]) -> bool
    requires { IsSorted name_cmp list.now }
    ensures { IsTrue result → AreApart list.now }
{
    for i in 1..list.len() {
        if list[i].is_named(list[i - 1].name.as_slice()) {
            return false;
        }
    }
    true
}
