// The lines that show the bookmarks of a document.
ghost use Rattle.std.specs.Prelude.{◌≡◌, ◌++◌, OnOk};
ghost use Rattle.doc_show.specs.Listing.{bookmark_line, bookmark_lines};

use doc_bits::{Memory, Text};
use doc_parts::{Bookmark, Bookmarks};
use std::alloc::Global;
use text_codes::show_units;

/// Appends the line of each bookmark. After want of memory a part of them may be there.
pub(crate) fn push_bookmarks(alloc: Global, text: &mut Text, list: &Bookmarks) -> Result<(), Memory>
    ensures { OnOk result (text.new ≡ text.old ++ bookmark_lines list.now) }
{
    for k in 0..list.len() {
        push_bookmark(alloc, text, list.get(k))?;
    }
    Ok(())
}

/// Appends the line of a bookmark.
fn push_bookmark(alloc: Global, text: &mut Text, bookmark: &Bookmark) -> Result<(), Memory>
    ensures { OnOk result (text.new ≡ text.old ++ bookmark_line bookmark.now) }
{
    let from = bookmark.from;
    let to = bookmark.to;
    let name = show_units(alloc, bookmark.name.as_slice())?;
    let name = name.as_str();
    let line = format!(in alloc; "bookmark {from} {to} {name}\n")?;
    text.push_all(line.as_str())
}
