// A bookmark that is put in place of another: no edit does that.
use doc_bits::Memory;
use doc_parts::{Bookmark, Bookmarks, Name};
use std::alloc::Global;
use std::test::Fail;

/// A bookmark with a name of one letter.
fn bookmark_of(alloc: Global, letter: u16) -> Result<Bookmark, Memory> {
    Ok(Bookmark {
        name: Name::from_slice(alloc, &[letter])?,
        from: 0,
        to: 0,
        flags: 0,
    })
}

/// Whether the first of a list is given back where another one is put in its place.
fn replaces(list: &mut Bookmarks, second: Bookmark) -> bool {
    if list.len() != 1 {
        return false;
    }
    let first = list.replace(0, second);
    first.is_named(&[0x61]) && list.get(0).is_named(&[0x62])
}

/// Whether the first of a list of one bookmark is given back where another one is put in its place.
fn is_replaced(alloc: Global) -> Result<bool, Memory> {
    let first = bookmark_of(alloc, 0x61)?;
    let second = bookmark_of(alloc, 0x62)?;
    let mut list = Bookmarks::new(alloc);
    list.add(first)?;
    Ok(replaces(&mut list, second))
}

#[test]
fn a_bookmark_takes_the_place_of_another(rt: HostRuntime) -> Result<(), Fail> {
    assert!(rt; is_replaced(rt.alloc())?);
    Ok(())
}
