// The attributes of elements, as they are printed.
ghost use Rattle.std.specs.Prelude.{◌++◌, [], ◌∷◌, codes, nat_le, if◌then◌else◌, option_map, Some};
ghost use Rattle.std.specs.Fmt.{decimal};
ghost use Rattle.std.specs.Str.{IsAscii};
ghost use Rattle.view_places.specs.declared.element.Element.TheVariants.{Note, Reference, BackLink, SmallCaps, Caps};
ghost use Rattle.view_places.specs.declared.element.Element.TheVariants.{List as ListElement};
ghost use Rattle.html_page.specs.Tags.{anchor_attributes, attribute, attributes_of, attributes_text, link_attributes};
ghost use Rattle.html_page.specs.Tags.{paragraph_attributes, plain_attributes, reach_attributes, span_attributes};
ghost use Rattle.html_text.specs.Tokens.{escaped_text};
ghost use Rattle.page_out.specs.Printed.{Prints};

use crate::tokens::push_character;
use doc_columns::ColumnDocument;
use doc_outer::Sink;
use field_links::{LinkText, anchor_of};
use link_targets::{bookmark_name, instruction_of, url_in};
use page_out::Page;
use view_places::{Element, List, Paragraph, Span};

/// Puts the attributes of an element of a page of the document, each after a space.
pub(crate) fn push_attributes<K: Sink>(
    page: &mut Page,
    out: &mut K,
    document: &ColumnDocument,
    element: Element,
)
    ensures { Prints K.Sink out.old page.old out.new page.new (attributes_text (attributes_of document.now element)) }
{
    match element {
        Element::Notes => page.push_ascii(out, b" aria-label=\"notes\""),
        Element::Note(number) => push_note(page, out, number),
        Element::Cell(cell) => push_span(page, out, cell.span),
        Element::HeadCell(cell) => push_head_cell(page, out, cell.span),
        Element::List(list) => push_list(page, out, list),
        Element::Paragraph(paragraph) => push_paragraph(page, out, paragraph),
        Element::Label => page.push_ascii(out, b" class=\"n\""),
        Element::Reference(number) => push_reference(page, out, number),
        Element::BackLink(number) => push_back_link(page, out, number),
        Element::SmallCaps => push_small_caps(page, out),
        Element::Caps => push_caps(page, out),
        Element::Link(link) => push_link(page, out, url_in(instruction_of(document, link))),
        Element::Anchor(number) => push_anchor(page, out, bookmark_name(document, number)),
        Element::Table(_)
        | Element::TableHead
        | Element::TableBody
        | Element::Row(_)
        | Element::NestedTable(_)
        | Element::NestedRow(_)
        | Element::NestedCell(_)
        | Element::Item(_)
        | Element::Bold
        | Element::Italic
        | Element::Underline
        | Element::Strike
        | Element::Raised
        | Element::Lowered => {}
    }
}

/// Puts those of a cell of the head of a table.
fn push_head_cell<K: Sink>(page: &mut Page, out: &mut K, span: Option<Span>)
    ensures { Prints K.Sink out.old page.old out.new page.new
        (attributes_text (attribute (codes "scope") (codes "col") ∷ span_attributes span)) }
{
    page.push_ascii(out, b" scope=\"col\"");
    push_span(page, out, span);
}

/// Puts those of a cell that is no part of another one.
fn push_span<K: Sink>(page: &mut Page, out: &mut K, span: Option<Span>)
    ensures { Prints K.Sink out.old page.old out.new page.new (attributes_text (span_attributes span)) }
{
    if let Some(span) = span {
        push_reach(page, out, span);
    }
}

/// Puts over how many columns and rows a cell reaches.
fn push_reach<K: Sink>(page: &mut Page, out: &mut K, span: Span)
    ensures { Prints K.Sink out.old page.old out.new page.new (attributes_text (reach_attributes span)) }
{
    push_columns(page, out, span.columns);
    push_rows(page, out, span.rows);
}

/// Puts a number of columns that is more than 1.
fn push_columns<K: Sink>(page: &mut Page, out: &mut K, columns: u16)
    ensures { Prints K.Sink out.old page.old out.new page.new
        (if nat_le 2 columns then 32 ∷ attribute (codes "colspan") (decimal columns) else []) }
{
    if columns >= 2 {
        push_quoted(page, out, b" colspan=\"", columns);
    }
}

/// Puts a number of rows that is more than 1.
fn push_rows<K: Sink>(page: &mut Page, out: &mut K, rows: u16)
    ensures { Prints K.Sink out.old page.old out.new page.new
        (if nat_le 2 rows then 32 ∷ attribute (codes "rowspan") (decimal rows) else []) }
{
    if rows >= 2 {
        push_quoted(page, out, b" rowspan=\"", rows);
    }
}

/// Puts a number and a quote behind a text.
fn push_quoted<K: Sink>(page: &mut Page, out: &mut K, front: &[u8], number: u16)
    requires { IsAscii front.now }
    ensures { Prints K.Sink out.old page.old out.new page.new (front.now ++ (decimal number ++ 34 ∷ [])) }
{
    push_numbered(page, out, front, number as usize);
    page.push_ascii(out, b"\"");
}

/// Puts those of a link that leads somewhere.
fn push_link<K: Sink>(page: &mut Page, out: &mut K, url: Option<LinkText<'_>>)
    ensures { Prints K.Sink out.old page.old out.new page.new (attributes_text (link_attributes url.entry)) }
{
    if let Some(url) = url {
        push_href(page, out, url);
    }
}

/// Puts the URL of a link.
fn push_href<K: Sink>(page: &mut Page, out: &mut K, url: LinkText<'_>)
    ensures { Prints K.Sink out.old page.old out.new page.new (attributes_text (link_attributes (Some url.entry))) }
{
    page.push_ascii(out, b" href=\"");
    push_value(page, out, url);
    page.push_ascii(out, b"\"");
}

/// Puts those of the beginning of a bookmark of this name.
fn push_anchor<K: Sink>(page: &mut Page, out: &mut K, name: Option<&[u16]>)
    ensures { Prints K.Sink out.old page.old out.new page.new
        (attributes_text (anchor_attributes (option_map (λ n. n.now) name.entry))) }
{
    if let Some(name) = name {
        push_id(page, out, anchor_of(name));
    }
}

/// Puts the name of an anchor.
fn push_id<K: Sink>(page: &mut Page, out: &mut K, anchor: LinkText<'_>)
    ensures { Prints K.Sink out.old page.old out.new page.new
        (attributes_text (attribute (codes "id") (escaped_text anchor.entry) ∷ [])) }
{
    page.push_ascii(out, b" id=\"");
    push_value(page, out, anchor);
    page.push_ascii(out, b"\"");
}

/// Puts the characters of a value.
fn push_value<K: Sink>(page: &mut Page, out: &mut K, text: LinkText<'_>)
    ensures { Prints K.Sink out.old page.old out.new page.new (escaped_text text.entry) }
{
    let mut left = text;
    while let Some(character) = left.next_char() {
        push_character(page, out, character as u32);
    }
}

/// Puts those of small capitals.
fn push_small_caps<K: Sink>(page: &mut Page, out: &mut K)
    ensures { Prints K.Sink out.old page.old out.new page.new (attributes_text (plain_attributes SmallCaps)) }
{
    page.push_ascii(out, b" style=\"font-variant:small-caps\"");
}

/// Puts those of capitals.
fn push_caps<K: Sink>(page: &mut Page, out: &mut K)
    ensures { Prints K.Sink out.old page.old out.new page.new (attributes_text (plain_attributes Caps)) }
{
    page.push_ascii(out, b" style=\"text-transform:uppercase\"");
}

/// Puts those of a note.
fn push_note<K: Sink>(page: &mut Page, out: &mut K, number: usize)
    ensures { Prints K.Sink out.old page.old out.new page.new (attributes_text (plain_attributes (Note number))) }
{
    push_numbered(page, out, b" id=\"fn-", number);
    page.push_ascii(out, b"\" role=\"doc-footnote\"");
}

/// Puts those of a list.
fn push_list<K: Sink>(page: &mut Page, out: &mut K, list: List)
    ensures { Prints K.Sink out.old page.old out.new page.new (attributes_text (plain_attributes (ListElement list))) }
{
    push_where(page, out, list.is_ordered, b" style=\"list-style:none\"");
}

/// Puts those of a paragraph.
fn push_paragraph<K: Sink>(page: &mut Page, out: &mut K, paragraph: Paragraph)
    ensures { Prints K.Sink out.old page.old out.new page.new (attributes_text (paragraph_attributes paragraph)) }
{
    push_level(page, out, paragraph.level);
    push_where(page, out, paragraph.right_to_left, b" dir=\"rtl\"");
    push_where(
        page,
        out,
        paragraph.breaks_page,
        b" style=\"break-before:page\"",
    );
}

/// Puts the level of a heading below the sixth.
fn push_level<K: Sink>(page: &mut Page, out: &mut K, level: u8)
    ensures { Prints K.Sink out.old page.old out.new page.new
        (if nat_le 7 level then 32 ∷ attribute (codes "aria-level") (decimal level) else []) }
{
    if level >= 7 {
        push_level_value(page, out, level);
    }
}

/// Puts the level.
fn push_level_value<K: Sink>(page: &mut Page, out: &mut K, level: u8)
    ensures { Prints K.Sink out.old page.old out.new page.new (32 ∷ attribute (codes "aria-level") (decimal level)) }
{
    push_numbered(page, out, b" aria-level=\"", level as usize);
    page.push_ascii(out, b"\"");
}

/// Puts a text where it is to be there.
fn push_where<K: Sink>(page: &mut Page, out: &mut K, there: bool, text: &[u8])
    requires { IsAscii text.now }
    ensures { Prints K.Sink out.old page.old out.new page.new (if there then text.now else []) }
{
    if there {
        page.push_ascii(out, text);
    }
}

/// Puts those of a reference to a note.
fn push_reference<K: Sink>(page: &mut Page, out: &mut K, number: usize)
    ensures { Prints K.Sink out.old page.old out.new page.new (attributes_text (plain_attributes (Reference number))) }
{
    push_numbered(page, out, b" id=\"fnref-", number);
    push_numbered(page, out, b"\" href=\"#fn-", number);
    page.push_ascii(out, b"\" role=\"doc-noteref\"");
}

/// Puts those of the way back from a note.
fn push_back_link<K: Sink>(page: &mut Page, out: &mut K, number: usize)
    ensures { Prints K.Sink out.old page.old out.new page.new (attributes_text (plain_attributes (BackLink number))) }
{
    push_numbered(page, out, b" href=\"#fnref-", number);
    page.push_ascii(out, b"\" role=\"doc-backlink\"");
}

/// Puts a number behind a text.
fn push_numbered<K: Sink>(page: &mut Page, out: &mut K, front: &[u8], number: usize)
    requires { IsAscii front.now }
    ensures { Prints K.Sink out.old page.old out.new page.new (front.now ++ decimal number) }
{
    page.push_ascii(out, front);
    page.push_number(out, number as u64);
}
