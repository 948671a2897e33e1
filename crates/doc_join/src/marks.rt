// The bookmarks of a joined document.
ghost use Rattle.std.specs.Prelude.{◌≡◌, ◌+◌, ◌^◌, ◌<◌, length, All, IfOk};
ghost use Rattle.std.specs.Cmp.Lexicographic.{slice_cmp};
ghost use Rattle.std.specs.List.Sorted.{IsSorted, IsPermutation};
ghost use Rattle.std.specs.Ordering.{nat_cmp};
ghost use Rattle.document_bookmarks.specs.Names.{name_cmp};
ghost use Rattle.doc_join.specs.Bookmarks.{bookmark_behind, has_name, joined_bookmarks};

use doc_bits::Memory;
use doc_parts::{Bookmark, Bookmarks, sort_names};
use std::alloc::Global;
use std::cmp::Ordering;

/// The bookmarks of a main text of `before` items, and those with other names of the text behind it.
pub(crate) fn join_bookmarks(
    alloc: Global,
    first: &Bookmarks,
    before: usize,
    second: &Bookmarks,
) -> Result<Bookmarks, Memory>
    requires few { length first.now + length second.now < 2 ^ 32 }
    requires starts { All (λ bookmark. bookmark.from + before < 2 ^ 32) second.now }
    requires ends { All (λ bookmark. bookmark.to + before < 2 ^ 32) second.now }
    ensures { IfOk result (λ made. made ≡ joined_bookmarks before first.now second.now) }
{
    let names = by_name(alloc, first)?;
    let mut made = first.copy(alloc, 0, first.len())?;
    // A list that does not know its names takes each bookmark in one step.
    made.splice(0, 0, Bookmarks::new(alloc))?;
    for i in 0..second.len() {
        let bookmark = second.get(i);
        if !has_name(&names, bookmark.name.as_slice()) {
            made.add(move_by(bookmark, before)?)?;
        }
    }
    made.arrange();
    Ok(made)
}

/// The bookmarks in the order of their names. The names are shared.
fn by_name(alloc: Global, list: &Bookmarks) -> Result<Vec<Bookmark>, Memory>
    ensures move_by { IfOk result (λ named. IsPermutation list.now named.items) }
    ensures sorted { IfOk result (λ named. IsSorted name_cmp named.items) }
{
    let mut named = copies(alloc, list)?;
    sort_names(&mut named);
    Ok(named)
}

/// The bookmarks of a list.
fn copies(alloc: Global, list: &Bookmarks) -> Result<Vec<Bookmark>, Memory>
    ensures { IfOk result (λ copies. copies.items ≡ list.now) }
{
    let mut items = Vec::with_capacity(alloc, list.len())?;
    for i in 0..list.len() {
        items.push(list.get(i).copy()?)?;
    }
    Ok(items)
}

/// Whether one of the bookmarks, which are in the order of their names, has this one. They are halved until it is
/// found.
fn has_name(named: &[Bookmark], name: &[u16]) -> bool
    requires { IsSorted name_cmp named.now }
    ensures { result ≡ has_name named.now name.now }
{
    let found = named.binary_search_by(
        |bookmark: &Bookmark| -> Ordering
            ensures { result ≡ slice_cmp nat_cmp bookmark.now.name name.entry.now }
        { bookmark.name.as_slice().cmp(name) },
    );
    found.is_ok()
}

/// A bookmark of a text that is behind so many items.
fn move_by(bookmark: &Bookmark, before: usize) -> Result<Bookmark, Memory>
    requires from { bookmark.now.from + before < 2 ^ 32 }
    requires to { bookmark.now.to + before < 2 ^ 32 }
    ensures { IfOk result (λ made. made ≡ bookmark_behind before bookmark.now) }
{
    Ok(Bookmark {
        name: bookmark.name.copy()?,
        from: bookmark.from + before as u32,
        to: bookmark.to + before as u32,
        flags: bookmark.flags,
    })
}
