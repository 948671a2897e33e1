// Bookmarks found by their names, one put and one taken away.
ghost use Rattle.std.specs.Prelude.{◌≡◌, ◌+◌, ◌^◌, ◌<◌, ◌↔◌, IsTrue, IsSome, IfOk, MatchOption, Some, None, length};
ghost use Rattle.std.specs.List.Sorted.{IsSorted};
ghost use Rattle.document_bookmarks.specs.Bookmarks.{bookmark_cmp};
ghost use Rattle.edit_ops.specs.Bookmarks.{bookmark_named, bookmark_begin as begin_there, new_bookmark};
ghost use Rattle.edit_ops.specs.Bookmarks.{with_bookmark as list_with, without_bookmark as list_without};

use doc_bits::Memory;
use doc_parts::{Bookmark, Bookmarks, Name};
use std::alloc::Global;

/// The bookmark of a name, where it is there.
fn find_bookmark<'a>(list: &'a Bookmarks, name: &[u16]) -> Option<&'a Bookmark>
    ensures { MatchOption result
        (bookmark_named name.now list.now ≡ None)
        (λ bookmark. bookmark_named name.now list.now ≡ Some bookmark.now) }
{
    for i in 0..list.len() {
        let bookmark = list.get(i);
        if bookmark.is_named(name) {
            return Some(bookmark);
        }
    }
    None
}

/// Whether one of the bookmarks has a name.
pub(crate) fn has_bookmark(list: &Bookmarks, name: &[u16]) -> bool
    ensures { IsTrue result ↔ IsSome (bookmark_named name.now list.now) }
{
    find_bookmark(list, name).is_some()
}

/// Where the bookmark of a name begins; 0 where there is none.
pub(crate) fn begin_of(list: &Bookmarks, name: &[u16]) -> u32
    ensures { result ≡ begin_there name.now list.now }
{
    match find_bookmark(list, name) {
        None => 0,
        Some(bookmark) => bookmark.from,
    }
}

/// The bookmarks with one more, without flags.
pub(crate) fn with_bookmark(
    alloc: Global,
    list: &Bookmarks,
    name: &[u16],
    from: u32,
    to: u32,
) -> Result<Bookmarks, Memory>
    requires few { length list.now + 1 < 2 ^ 32 }
    requires sorted { IsSorted bookmark_cmp list.now }
    ensures { IfOk result (λ made. made ≡ list_with (new_bookmark name.now from to) list.now) }
{
    let name = Name::from_slice(alloc, name)?;
    let bookmark = Bookmark {
        name,
        from,
        to,
        flags: 0,
    };
    let copy = list.copy(alloc, 0, list.len())?;
    put_there(copy, bookmark)
}

/// The bookmarks with one more in its place.
fn put_there(list: Bookmarks, bookmark: Bookmark) -> Result<Bookmarks, Memory>
    requires few { length list + 1 < 2 ^ 32 }
    requires sorted { IsSorted bookmark_cmp list }
    ensures { IfOk result (λ made. made ≡ list_with bookmark list) }
{
    let mut made = list;
    made.put(bookmark)?;
    Ok(made)
}

/// The bookmarks without those of a name.
pub(crate) fn without_bookmark(
    alloc: Global,
    list: &Bookmarks,
    name: &[u16],
) -> Result<Bookmarks, Memory>
    ensures { IfOk result (λ made. made ≡ list_without name.now list.now) }
{
    let mut made = list.copy(alloc, 0, list.len())?;
    made.remove(name);
    Ok(made)
}
