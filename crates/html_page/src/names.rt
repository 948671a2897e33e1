// The names of elements.
ghost use Rattle.std.specs.Prelude.{◌≡◌, codes, if◌then◌else◌};
ghost use Rattle.std.specs.Str.{IsAscii};
ghost use Rattle.html_page.specs.Tags.{ends_line, has_tags, element_name, paragraph_name};

use view_places::Element;

/// The name of an element in a page.
pub(crate) fn name_of(element: Element) -> &'static [u8]
    ensures is { result.now ≡ element_name element }
    ensures ascii { IsAscii result.now }
{
    match element {
        Element::Notes => b"section",
        Element::Note(_) => b"aside",
        Element::Table(_) => b"table",
        Element::TableHead => b"thead",
        Element::TableBody => b"tbody",
        Element::Row(_) => b"tr",
        Element::Cell(_) => b"td",
        Element::HeadCell(_) => b"th",
        Element::NestedTable(_) => b"table",
        Element::NestedRow(_) => b"tr",
        Element::NestedCell(_) => b"td",
        Element::List(list) => list_name(list.is_ordered),
        Element::Item(_) => b"li",
        Element::Paragraph(paragraph) => paragraph_name(paragraph.level),
        Element::Label => b"span",
        Element::Reference(_) => b"a",
        Element::BackLink(_) => b"a",
        Element::Bold => b"b",
        Element::Italic => b"i",
        Element::Underline => b"u",
        Element::Strike => b"s",
        Element::SmallCaps => b"span",
        Element::Caps => b"span",
        Element::Raised => b"sup",
        Element::Lowered => b"sub",
        Element::Link(_) => b"a",
        Element::Anchor(_) => b"span",
    }
}

/// That of a list.
fn list_name(is_ordered: bool) -> &'static [u8]
    ensures is { result.now ≡ (if is_ordered then codes "ol" else codes "ul") }
    ensures ascii { IsAscii result.now }
{
    if is_ordered { b"ol" } else { b"ul" }
}

/// That of a paragraph of this level.
fn paragraph_name(level: u8) -> &'static [u8]
    ensures is { result.now ≡ paragraph_name level }
    ensures ascii { IsAscii result.now }
{
    match level {
        0 => b"p",
        1 => b"h1",
        2 => b"h2",
        3 => b"h3",
        4 => b"h4",
        5 => b"h5",
        _ => b"h6",
    }
}

/// Whether an element has tags: a cell that is a part of another one has none.
pub(crate) fn has_tags(element: Element) -> bool
    ensures { result ≡ has_tags element }
{
    match element {
        Element::Cell(cell) | Element::HeadCell(cell) => cell.span.is_some(),
        Element::Notes
        | Element::Note(_)
        | Element::Table(_)
        | Element::TableHead
        | Element::TableBody
        | Element::Row(_)
        | Element::NestedTable(_)
        | Element::NestedRow(_)
        | Element::NestedCell(_)
        | Element::List(_)
        | Element::Item(_)
        | Element::Paragraph(_)
        | Element::Label
        | Element::Reference(_)
        | Element::BackLink(_)
        | Element::Bold
        | Element::Italic
        | Element::Underline
        | Element::Strike
        | Element::SmallCaps
        | Element::Caps
        | Element::Raised
        | Element::Lowered
        | Element::Link(_)
        | Element::Anchor(_) => true,
    }
}

/// Whether a line ends behind an element.
pub(crate) fn ends_line(element: Element) -> bool
    ensures { result ≡ ends_line element }
{
    match element {
        Element::Notes
        | Element::Note(_)
        | Element::Table(_)
        | Element::TableHead
        | Element::TableBody
        | Element::Row(_)
        | Element::Cell(_)
        | Element::HeadCell(_)
        | Element::NestedTable(_)
        | Element::NestedRow(_)
        | Element::NestedCell(_)
        | Element::List(_)
        | Element::Item(_)
        | Element::Paragraph(_)
        | Element::BackLink(_) => true,
        Element::Label
        | Element::Reference(_)
        | Element::Bold
        | Element::Italic
        | Element::Underline
        | Element::Strike
        | Element::SmallCaps
        | Element::Caps
        | Element::Raised
        | Element::Lowered
        | Element::Link(_)
        | Element::Anchor(_) => false,
    }
}
