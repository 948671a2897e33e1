// The anchors of bookmarks.
ghost use Rattle.std.specs.Prelude.{◌≡◌, ◌+◌, ◌-◌, ◌^◌, ◌<◌, ◌≤◌, ◌++◌, [], ◌∷◌, length, nat_lt, true};
ghost use Rattle.doc_places.specs.Places.{anchor_places, bare_place, lead, consecutive};
ghost use Rattle.form_page.specs.Forms.{PutsPlaces};
ghost use Rattle.view_places.specs.declared.element.Element.TheVariants.{Anchor};

use crate::writer::Writer;
use doc_outer::Sink;
use doc_parts::Bookmarks;
use view_paths::MAX_DEPTH;
use view_places::Element;

/// Writes the anchors of the bookmarks from one on that begin before a place, and answers the number of the next one.
pub(crate) fn write_anchors<K: Sink>(
    writer: &mut Writer<'_>,
    out: &mut K,
    bookmarks: &Bookmarks,
    next: usize,
    end: usize,
) -> usize
    requires room { length writer.old.path < MAX_DEPTH }
    requires next { next ≤ lead bookmarks.now end }
    ensures path { writer.new.path ≡ writer.old.path }
    ensures next { result ≡ lead bookmarks.now end }
    ensures puts { PutsPlaces K.Sink out.old writer.old.page out.new writer.new.page
        (anchor_places writer.old.path (consecutive next (lead bookmarks.now end - next))) }
{
    let mut number = next;
    while begins_before(bookmarks, number, end) {
        write_anchor(writer, out, number);
        number += 1;
    }
    number
}

/// The number of the first bookmark from one on that does not begin before a place.
pub(crate) fn next_anchor(bookmarks: &Bookmarks, next: usize, end: usize) -> usize
    requires { next ≤ lead bookmarks.now end }
    ensures { result ≡ lead bookmarks.now end }
{
    let mut number = next;
    while begins_before(bookmarks, number, end) {
        number += 1;
    }
    number
}

/// Whether the bookmark with this number is there and begins before a place, where those before it do.
fn begins_before(bookmarks: &Bookmarks, number: usize, end: usize) -> bool
    requires { number ≤ lead bookmarks.now end }
    ensures is { result ≡ nat_lt number (lead bookmarks.now end) }
    ensures more { result ≡ true → number + 1 < 2 ^ 64 }
{
    if number >= bookmarks.len() {
        return false;
    }
    (bookmarks.get(number).from as usize) < end
}

/// Writes the anchor of the bookmark with this number.
fn write_anchor<K: Sink>(writer: &mut Writer<'_>, out: &mut K, number: usize)
    requires { length writer.old.path < MAX_DEPTH }
    ensures path { writer.new.path ≡ writer.old.path }
    ensures puts { PutsPlaces K.Sink out.old writer.old.page out.new writer.new.page
        (bare_place (writer.old.path ++ Anchor number ∷ []) ∷ []) }
{
    let depth = writer.path.len();
    writer.path.push(Element::Anchor(number));
    writer.page.put(out, &writer.path, None);
    writer.path.truncate(depth);
}
