// What a glyph is in within its paragraph.
ghost use Rattle.std.specs.Prelude.{◌≡◌, ◌+◌, ◌^◌, ◌<◌, ◌≤◌, ◌++◌, [], ◌∷◌, length};
ghost use Rattle.doc_places.specs.Places.{format_elements, element_if, inline_elements, link_elements};
ghost use Rattle.doc_places.specs.Places.{note_elements, position_elements};
ghost use Rattle.view_places.specs.declared.element.Element.TheVariants.{Raised, Reference as AReference};

use char_formats::{CharFormat, Position};
use doc_view::Reference;
use view_paths::{MAX_DEPTH, Path};
use view_places::{Element, Link};

/// Puts the elements that a glyph of this format in a link is in, inside of a path. Where it refers to a note, so
/// many references are before it.
pub fn push_inline(
    path: &mut Path<Element>,
    link: Option<Link>,
    count: usize,
    format: &CharFormat,
    reference: Option<Reference>,
)
    requires room { length path.old + 8 ≤ MAX_DEPTH }
    requires few { count + 1 < 2 ^ 64 }
    ensures { path.new ≡ path.old ++ inline_elements link count format.now reference }
{
    match reference {
        None => push_text(path, link, format),
        Some(reference) => push_note(path, count, format, reference.number),
    }
}

/// Puts those of text in a link.
fn push_text(path: &mut Path<Element>, link: Option<Link>, format: &CharFormat)
    requires room { length path.old + 8 ≤ MAX_DEPTH }
    ensures { path.new ≡ path.old ++ (link_elements link ++ format_elements format.now) }
{
    push_link(path, link);
    push_format(path, format);
}

/// Puts the element of a link.
pub fn push_link(path: &mut Path<Element>, link: Option<Link>)
    requires { length path.old < MAX_DEPTH }
    ensures is { path.new ≡ path.old ++ link_elements link }
    ensures few { length path.new ≤ length path.old + 1 }
{
    if let Some(link) = link {
        path.push(Element::Link(link));
    }
}

/// Puts those of a reference to a note, which is numbered or not.
fn push_note(path: &mut Path<Element>, count: usize, format: &CharFormat, number: Option<u32>)
    requires room { length path.old + 8 ≤ MAX_DEPTH }
    requires few { count + 1 < 2 ^ 64 }
    ensures { path.new ≡ path.old ++ note_elements count format.now number }
{
    match number {
        Some(_) => push_raised(path, count),
        None => push_marked(path, count, format),
    }
}

/// Puts those of a number.
fn push_raised(path: &mut Path<Element>, count: usize)
    requires room { length path.old + 2 ≤ MAX_DEPTH }
    requires few { count + 1 < 2 ^ 64 }
    ensures { path.new ≡ path.old ++ Raised ∷ AReference (count + 1) ∷ [] }
{
    path.push(Element::Raised);
    path.push(Element::Reference(count + 1));
}

/// Puts those of a mark of the document's own.
fn push_marked(path: &mut Path<Element>, count: usize, format: &CharFormat)
    requires room { length path.old + 8 ≤ MAX_DEPTH }
    requires few { count + 1 < 2 ^ 64 }
    ensures { path.new ≡ path.old ++ (format_elements format.now ++ AReference (count + 1) ∷ []) }
{
    push_format(path, format);
    path.push(Element::Reference(count + 1));
}

/// Puts those of a format.
fn push_format(path: &mut Path<Element>, format: &CharFormat)
    requires { length path.old + 7 ≤ MAX_DEPTH }
    ensures is { path.new ≡ path.old ++ format_elements format.now }
    ensures few { length path.new ≤ length path.old + 7 }
{
    push_given(path, format.bold, Element::Bold);
    push_given(path, format.italic, Element::Italic);
    push_given(path, format.underline, Element::Underline);
    push_given(path, format.strike, Element::Strike);
    push_given(path, format.small_caps, Element::SmallCaps);
    push_given(path, format.caps, Element::Caps);
    push_position(path, format.position);
}

/// Puts an element where it is to be there.
fn push_given(path: &mut Path<Element>, there: bool, element: Element)
    requires { length path.old < MAX_DEPTH }
    ensures is { path.new ≡ path.old ++ element_if there element }
    ensures few { length path.new ≤ length path.old + 1 }
{
    if there {
        path.push(element);
    }
}

/// Puts that of a position.
fn push_position(path: &mut Path<Element>, position: Position)
    requires { length path.old < MAX_DEPTH }
    ensures is { path.new ≡ path.old ++ position_elements position }
    ensures few { length path.new ≤ length path.old + 1 }
{
    match position {
        Position::Normal => {}
        Position::Raised => path.push(Element::Raised),
        Position::Lowered => path.push(Element::Lowered),
    }
}
