// Places as Markdown has them.
ghost use Rattle.std.specs.Prelude.{◌≡◌, ◌+◌, ◌≤◌, ◌++◌, [], false, filter, length};
ghost use Rattle.std.specs.List.{cons_option};
ghost use Rattle.markdown_page.specs.Shape.{inner_kind, is_from_note, is_space, is_to_note, is_white, keeps};
ghost use Rattle.markdown_page.specs.Shape.{element_kind};
ghost use Rattle.markdown_page.specs.Runs.{has_emphasis, is_emphasis, is_emphasis_in};
ghost use Rattle.markdown_page.specs.Shape.{shaped_glyph, shaped_path, without_number};

use view_paths::{MAX_DEPTH, Path};
use view_places::{Element, Glyph};

/// What an element is to what is in it.
#[derive(Clone, Copy)]
pub enum Kind {
    /// It is no format.
    Block,
    /// A reference to a note.
    ToNote,
    /// The label of a note.
    FromNote,
    Emphasis,
    /// A format with a tag of HTML.
    Tagged,
    /// A format, or what is in a nested table, that Markdown has nothing for.
    Unmarked,
}

/// What an element is to what is in it.
fn kind_of(element: Element) -> Kind
    ensures { result ≡ element_kind element }
{
    match element {
        Element::Reference(_) => Kind::ToNote,
        Element::BackLink(_) => Kind::FromNote,
        Element::Bold | Element::Italic | Element::Strike => Kind::Emphasis,
        Element::Underline | Element::Raised | Element::Lowered => Kind::Tagged,
        Element::SmallCaps
        | Element::Caps
        | Element::NestedTable(_)
        | Element::NestedRow(_)
        | Element::NestedCell(_) => Kind::Unmarked,
        Element::Notes
        | Element::Note(_)
        | Element::Table(_)
        | Element::TableHead
        | Element::TableBody
        | Element::Row(_)
        | Element::Cell(_)
        | Element::HeadCell(_)
        | Element::List(_)
        | Element::Item(_)
        | Element::Paragraph(_)
        | Element::Label
        | Element::Link(_)
        | Element::Anchor(_) => Kind::Block,
    }
}

/// That of the innermost element.
pub(crate) fn inner_kind(path: &Path<Element>) -> Kind
    ensures { result ≡ inner_kind path.now }
{
    match path.get(path.len().saturating_sub(1)) {
        None => Kind::Block,
        Some(element) => kind_of(element),
    }
}

/// Whether a unit is white space of Unicode.
pub(crate) fn is_white(unit: u16) -> bool
    ensures { result ≡ is_white unit }
{
    match unit {
        0x20 | 0x85 | 0xA0 | 0x1680 => true,
        0x2000..=0x200A => true,
        0x2028 | 0x2029 | 0x202F | 0x205F | 0x3000 => true,
        _ => false,
    }
}

/// Whether a glyph is white space.
fn is_space(glyph: Option<Glyph>) -> bool
    ensures { result ≡ is_space glyph }
{
    match glyph {
        Some(Glyph::Unit(unit)) => is_white(unit),
        Some(Glyph::Tab) => true,
        _ => false,
    }
}

/// Whether a place keeps an element.
fn keeps(inner: Kind, space: bool, kind: Kind) -> bool
    ensures { result ≡ keeps inner space kind }
{
    match kind {
        Kind::Block | Kind::ToNote | Kind::FromNote => true,
        Kind::Emphasis => !is_to_note(inner) && !space,
        Kind::Tagged => !is_to_note(inner),
        Kind::Unmarked => false,
    }
}

fn is_to_note(kind: Kind) -> bool
    ensures { result ≡ is_to_note kind }
{
    match kind {
        Kind::ToNote => true,
        Kind::Block | Kind::FromNote | Kind::Emphasis | Kind::Tagged | Kind::Unmarked => false,
    }
}

/// The elements that a glyph is in.
pub(crate) fn shaped_path(glyph: Option<Glyph>, to: &Path<Element>) -> Path<Element>
    ensures { result ≡ shaped_path glyph to.now }
{
    let inner = inner_kind(to);
    let space = is_space(glyph);
    let mut path = Path::new(Element::Notes);
    for i in 0..to.len() {
        push_kept(&mut path, to.get(i), inner, space);
    }
    path
}

/// Puts an element where it is kept.
fn push_kept(path: &mut Path<Element>, element: Option<Element>, inner: Kind, space: bool)
    requires { length path.old + 1 ≤ MAX_DEPTH }
    ensures { path.new ≡ path.old ++ filter (λ e. keeps inner space (element_kind e)) (cons_option element []) }
{
    match element {
        None => {}
        Some(element) => {
            if keeps(inner, space, kind_of(element)) {
                path.push(element);
            }
        }
    }
}

/// Whether white space is outside of an element of a path.
pub(crate) fn has_emphasis(path: &Path<Element>) -> bool
    ensures { result ≡ false → has_emphasis path.now ≡ false }
{
    for i in 0..path.len() {
        if is_emphasis_in(path.get(i)) {
            return true;
        }
    }
    false
}

/// Whether it is outside of an element.
fn is_emphasis_in(element: Option<Element>) -> bool
    ensures { result ≡ is_emphasis_in element }
{
    match element {
        None => false,
        Some(element) => is_emphasis(kind_of(element)),
    }
}

fn is_emphasis(kind: Kind) -> bool
    ensures { result ≡ is_emphasis kind }
{
    match kind {
        Kind::Emphasis => true,
        Kind::Block | Kind::ToNote | Kind::FromNote | Kind::Tagged | Kind::Unmarked => false,
    }
}

/// What is shown there.
pub(crate) fn shaped_glyph(inner: Kind, glyph: Option<Glyph>) -> Option<Glyph>
    ensures { result ≡ shaped_glyph inner glyph }
{
    if is_from_note(inner) {
        return None;
    }
    match glyph {
        None => None,
        Some(glyph) => without_number(glyph),
    }
}

pub(crate) fn is_from_note(kind: Kind) -> bool
    ensures { result ≡ is_from_note kind }
{
    match kind {
        Kind::FromNote => true,
        Kind::Block | Kind::ToNote | Kind::Emphasis | Kind::Tagged | Kind::Unmarked => false,
    }
}

/// A glyph that is not the number of a note.
fn without_number(glyph: Glyph) -> Option<Glyph>
    ensures { result ≡ without_number glyph }
{
    match glyph {
        Glyph::NoteMark(_) => None,
        Glyph::Unit(_)
        | Glyph::Tab
        | Glyph::LineBreak
        | Glyph::PageBreak
        | Glyph::Picture(_)
        | Glyph::Object => Some(glyph),
    }
}
