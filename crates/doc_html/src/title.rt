// The title of a page: what is seen of the first paragraph that has more than spaces.
ghost use Rattle.std.specs.Prelude.{◌≡◌, ◌+◌, ◌<◌, ◌≤◌, ◌∷◌, ◌++◌, [], length, take, slice_range, IfOk, OnOk};
ghost use Rattle.std.specs.List.{cons_option, count_by};
ghost use Rattle.style_sheet.specs.Chain.{style_kind_at};
ghost use Rattle.plain_doc.specs.RightDocument.{HoldsAtItems};
ghost use Rattle.plain_doc.specs.RulesOfTexts.{HasParagraphStyle};
ghost use Rattle.plain_doc.specs.Sound.{IsSound};
ghost use Rattle.doc_columns.specs.Walks.{items_in, AreFullParts, IsColumnWalk};
ghost use Rattle.doc_view.specs.Course.{IsCourse, has_reference};
ghost use Rattle.doc_view.specs.Page.{AreFormats};
ghost use Rattle.doc_view.specs.Seen.{Formats, paragraphs_of, seen_from};
ghost use Rattle.doc_html.specs.Head.{is_title_text, longest_title, seen_unit, title_in, document_title, title_unit};
ghost use Rattle.doc_html.specs.Head.{title_units};

use char_formats::StyleFormats;
use doc_bits::{Memory, Units};
use doc_columns::{ColumnDocument, alike_from, paragraph_end};
use doc_view::{
    Bounds, Course, Manner, Options, References, Seen, Text, TextKind, fonts_of, see, style_of,
};
use run_lists::{Cursor, seek};
use std::alloc::Global;
use text_codes::SPACE;
use view_places::Glyph;

/// How many units a title has at most.
const LONGEST_TITLE: usize = 80;

/// The title of a text of which nothing is seen.
const UNTITLED: [u16; 8] = [0x55, 0x6E, 0x74, 0x69, 0x74, 0x6C, 0x65, 0x64];

/// The title of a page of a document.
pub(crate) fn title_of(
    alloc: Global,
    document: &ColumnDocument,
    formats: &StyleFormats,
    options: Options,
) -> Result<Units, Memory>
    requires sound { IsSound document.now }
    requires formats { formats.now ≡ document.now.sheet }
    ensures { IfOk result (λ title. (all : Formats) → AreFormats document.now.sheet all
        → title ≡ document_title all options document.now) }
{
    let text = Text {
        parts: document.main.parts(),
        formats,
        manner: Manner {
            hidden: options.hidden,
            kind: TextKind::Header,
            fonts: fonts_of(document),
        },
    };
    let title = title_in(alloc, &text)?;
    Ok(title)
}

/// The title of a text. It is linear in what is before the paragraph that it is taken from, and in that one.
fn title_in(alloc: Global, text: &Text<'_>) -> Result<Units, Memory>
    requires parts { AreFullParts text.now.parts }
    requires normal { style_kind_at text.now.formats.now 0 ≡ 1 }
    requires styles { HoldsAtItems (items_in text.now.parts) (λ i item. HasParagraphStyle text.now.formats.now item) }
    requires room { count_by (has_reference text.now.manner) (items_in text.now.parts) ≡ 0 }
    ensures { IfOk result (λ title. (formats : Formats) → AreFormats text.now.formats.now formats
        → title ≡ title_in (paragraphs_of formats text.now.manner (items_in text.now.parts))) }
{
    let len = text.parts.units.len();
    let mut course = Course::new(References::none(alloc));
    let mut marks = Cursor::new();
    while course.place < len {
        let end = paragraph_end(text.parts.attachments, &mut marks, course.place, len);
        let last = seek(text.parts.attachments, &mut marks, end - 1);
        let bounds = Bounds {
            end,
            istd: style_of(&last.mark),
        };
        let title = paragraph_title(alloc, &mut course, text, bounds)?;
        if is_title(title.as_slice()) {
            return Ok(title);
        }
    }
    let none = Units::from_slice(alloc, &UNTITLED)?;
    Ok(none)
}

/// Whether some unit is more than a space.
fn is_title(units: &[u16]) -> bool
    ensures { result ≡ is_title_text units.now }
{
    for unit in units {
        if *unit > SPACE {
            return true;
        }
    }
    false
}

/// The title that a paragraph has. It goes to the end of the paragraph.
fn paragraph_title(
    alloc: Global,
    course: &mut Course,
    text: &Text<'_>,
    bounds: Bounds,
) -> Result<Units, Memory>
    requires parts { AreFullParts text.now.parts }
    requires walk { IsColumnWalk text.now.parts course.old.walk course.old.place }
    requires course { IsCourse text.now.manner (items_in text.now.parts) course.old }
    requires ahead { course.old.place ≤ bounds.end }
    requires within { bounds.end ≤ length text.now.parts.units.now }
    requires style { style_kind_at text.now.formats.now bounds.istd ≡ 1 }
    ensures place { OnOk result (course.new.place ≡ bounds.end) }
    ensures walk { OnOk result (IsColumnWalk text.now.parts course.new.walk bounds.end) }
    ensures course { OnOk result (IsCourse text.now.manner (items_in text.now.parts) course.new) }
    ensures title { IfOk result (λ title. (formats : Formats) → AreFormats text.now.formats.now formats
        → title ≡ title_units (seen_from formats text.now.manner bounds.istd
        (take course.old.place (items_in text.now.parts))
        (slice_range (items_in text.now.parts) course.old.place bounds.end))) }
{
    let mut title = Units::new(alloc);
    while course.place < bounds.end {
        let seen = next_seen(course, text, bounds.istd);
        push_seen(&mut title, &seen)?;
    }
    Ok(title)
}

/// What is seen of the item of the place in a paragraph of a style; goes behind it.
fn next_seen(course: &mut Course, text: &Text<'_>, istd: u16) -> Seen
    requires parts { AreFullParts text.now.parts }
    requires walk { IsColumnWalk text.now.parts course.old.walk course.old.place }
    requires course { IsCourse text.now.manner (items_in text.now.parts) course.old }
    requires within { course.old.place < length text.now.parts.units.now }
    requires style { style_kind_at text.now.formats.now istd ≡ 1 }
    ensures place { course.new.place ≡ course.old.place + 1 }
    ensures walk { IsColumnWalk text.now.parts course.new.walk (course.old.place + 1) }
    ensures course { IsCourse text.now.manner (items_in text.now.parts) course.new }
    ensures seen { (formats : Formats) → AreFormats text.now.formats.now formats
        → result ∷ [] ≡ seen_from formats text.now.manner istd (take course.old.place (items_in text.now.parts))
        (slice_range (items_in text.now.parts) course.old.place (course.old.place + 1)) }
{
    let alike = alike_from(&text.parts, &mut course.walk, course.place);
    let format = text.formats.format(istd, alike.chp);
    let unit = text.parts.units[course.place];
    let seen = see(text.manner, &format, course.front, unit, alike.attached);
    course.pass(unit, alike.attached, seen.reference);
    seen
}

/// Puts what a title has of an item, as far as a title reaches.
fn push_seen(title: &mut Units, seen: &Seen) -> Result<(), Memory>
    requires { length title.old ≤ longest_title }
    ensures { OnOk result (title.new ≡ take longest_title (title.old ++ cons_option (seen_unit seen.now) [])) }
{
    let len = title.as_slice().len();
    if len >= LONGEST_TITLE {
        return Ok(());
    }
    match seen_unit(seen) {
        None => Ok(()),
        Some(unit) => {
            title.push_all(&[unit])?;
            Ok(())
        }
    }
}

/// What a title has of what is seen of an item.
fn seen_unit(seen: &Seen) -> Option<u16>
    ensures { result ≡ seen_unit seen.now }
{
    if !seen.is_shown {
        return None;
    }
    match seen.glyph {
        None => None,
        Some(glyph) => title_unit(glyph),
    }
}

/// What a title has of a glyph.
fn title_unit(glyph: Glyph) -> Option<u16>
    ensures { result ≡ title_unit glyph }
{
    match glyph {
        Glyph::Unit(unit) => Some(unit),
        Glyph::Tab | Glyph::LineBreak | Glyph::PageBreak => Some(SPACE),
        Glyph::NoteMark(_) | Glyph::Picture(_) | Glyph::Object => None,
    }
}
