// A text that is read and written: its paragraphs, one behind the other.
ghost use Rattle.std.specs.Prelude.{◌≡◌, ℕ, ◌+◌, ◌^◌, ◌<◌, ◌≤◌, ◌++◌, ◌||◌, List, length, take, slice_range};
ghost use Rattle.std.specs.Prelude.{is_some, if◌then◌else◌, None, slice_index, true};
ghost use Rattle.doc_view.specs.Blocks.{IsItself, shows_units};
ghost use Rattle.std.specs.List.{count_by};
ghost use Rattle.style_sheet.specs.Chain.{style_kind_at};
ghost use Rattle.doc_model.specs.declared.item.Item.{Item};
ghost use Rattle.plain_doc.specs.RightDocument.{HoldsAtItems};
ghost use Rattle.plain_doc.specs.RulesOfTexts.{HasParagraphStyle};
ghost use Rattle.doc_columns.specs.Walks.{items_in, AreFullParts, IsColumnWalk};
ghost use Rattle.doc_view.specs.Course.{HasAttached, HasFormat, IsCourse, has_reference};
ghost use Rattle.doc_view.specs.declared.reading.Manner.{Manner};
ghost use Rattle.doc_view.specs.Page.{AreFormats};
ghost use Rattle.doc_view.specs.Seen.{Formats, paragraphs_of, references_of, seen_from, with_values};
ghost use Rattle.doc_places.specs.Places.{count_of, hypertext_of, text_places};
ghost use Rattle.form_page.specs.Forms.{PutsPlaces};
ghost use Rattle.doc_html.specs.Writes.{IsReading, WritesItems, at, links_in};

use crate::anchors::write_anchors;
use crate::heads::{is_head, known_behind};
use crate::writer::Writer;
use doc_columns::{Attached, alike_from, paragraph_end};
use doc_outer::Sink;
use doc_parts::Bookmarks;
use doc_places::{Grid, Lists, Look, Origin, TableCells, cell_at, label_units, push_block};
use doc_view::{Bounds, Course, Reference, References, Standing, Stretch, Text, see, style_of};
use list_numbers::ParagraphValuesList;
use run_lists::{Cursor, seek};
use view_paths::MAX_DEPTH;

/// Where the reading of a text is, to how many notes the items in front refer and where the last of these items ends,
/// where its paragraph is, and whether something of the paragraph was written.
#[derive(Drop)]
pub(crate) struct Reading {
    pub(crate) course: Course,
    pub(crate) count: usize,
    pub(crate) referred: usize,
    pub(crate) origin: Origin,
    pub(crate) begun: bool,
}

impl Reading {
    /// At the start of the text of a note with this number, from 1, or of the main text.
    fn new(references: References, note: usize) -> Reading
        ensures place { result.course.place ≡ 0 }
        ensures walk { result.course.walk ≡ record {
          chps = record { run = 0; begin = 0 };
          attachments = record {
            run =
                0;
            begin = 0;
          };
        } }
        ensures references { result.course.references ≡ references }
        ensures count { result.count ≡ 0 }
        ensures referred { result.referred ≡ 0 }
        ensures course { (manner : Manner) (items : List Item) → count_by (has_reference manner) items ≤ references.room
            → IsCourse manner items result.course }
    {
        Reading {
            course: Course::new(references),
            count: 0,
            referred: 0,
            origin: Origin::new(note, 0),
            begun: false,
        }
    }
}

impl Reading {
    /// How many items of a stretch are seen as their units from here on, and refer to no note.
    fn run_len(&self, text: &Text<'_>, stretch: &Stretch<'_>) -> usize
        requires ahead { self.now.course.place ≤ stretch.now.until }
        requires within { stretch.now.until ≤ length text.now.parts.units.now }
        ensures within { self.now.course.place + result ≤ stretch.now.until }
        ensures note { 0 < result → stretch.now.attached.now.note ≡ None }
        ensures shows { 0 < result
            → shows_units text.now.manner stretch.now.format self.now.course.front stretch.now.attached.now ≡ true }
        ensures units { (k : ℕ) → self.now.course.place ≤ k → k < self.now.course.place + result
            → IsItself (slice_index text.now.parts.units.now k) }
    {
        match stretch.attached.note {
            None => self.course.run_len(text, stretch),
            Some(_) => 0,
        }
    }
}

/// What else is known of a text: the number of its note, from 1, or 0 of the main text, its bookmarks, the values of its
/// paragraphs, and its cells.
#[derive(Drop)]
pub(crate) struct Context<'a> {
    pub(crate) note: usize,
    pub(crate) bookmarks: &'a Bookmarks,
    pub(crate) values: &'a ParagraphValuesList,
    pub(crate) cells: &'a TableCells,
}

/// Writes a text inside of the elements that are open. Its bookmarks are in order. It answers the notes that the text
/// refers to. It is linear in the units and the runs.
pub(crate) fn write_text<K: Sink>(
    writer: &mut Writer<'_>,
    out: &mut K,
    text: &Text<'_>,
    context: &Context<'_>,
    references: References,
) -> References
    requires parts { AreFullParts text.now.parts }
    requires normal { style_kind_at text.now.formats.now 0 ≡ 1 }
    requires styles { HoldsAtItems (items_in text.now.parts) (λ i item. HasParagraphStyle text.now.formats.now item) }
    requires room { count_by (has_reference text.now.manner) (items_in text.now.parts) ≤ references.room }
    requires depth { length writer.old.path + 21 ≤ MAX_DEPTH }
    ensures path { writer.new.path ≡ writer.old.path }
    ensures puts { (formats : Formats) → AreFormats text.now.formats.now formats
        → PutsPlaces K.Sink out.old writer.old.page out.new writer.new.page
        (text_places (hypertext_of context.now.bookmarks.now context.now.note (items_in text.now.parts)
        context.now.cells.now) writer.old.path (with_values context.now.values.now (paragraphs_of formats text.now.manner (items_in text.now.parts)))) }
    ensures references { (formats : Formats) → AreFormats text.now.formats.now formats → result.list
        ≡ references.list ++ references_of (with_values context.now.values.now
        (paragraphs_of formats text.now.manner (items_in text.now.parts))) }
{
    let len = text.parts.units.len();
    let depth = writer.path.len();
    let mut reading = Reading::new(references, context.note);
    let mut marks = Cursor::new();
    let mut grid = Grid::new();
    let mut known = None;
    let mut lists = Lists::none();
    let mut next = 0;
    while reading.course.place < len {
        let end = paragraph_end(
            text.parts.attachments,
            &mut marks,
            reading.course.place,
            len,
        );
        let last = seek(text.parts.attachments, &mut marks, end - 1);
        let standing = Standing::of(text.parts.units[end - 1], &last.mark);
        let own = context.values.get(grid.number);
        let in_table = standing.is_in_table();
        let look = Look::of(own, in_table, end - reading.course.place >= 2);
        let head = is_head(&text.parts, marks, end, standing, known);
        let cell = cell_at(context.cells, grid, standing, grid.in_head(head));
        push_block(&mut writer.path, grid, cell, &look, &lists);
        let bounds = Bounds {
            end,
            istd: style_of(&last.mark),
        };
        let origin = Origin::new(context.note, reading.course.place);
        reading.origin = origin;
        reading.begun = false;
        next = write_anchors(writer, out, context.bookmarks, next, end);
        let label = label_units(look.item, own);
        write_paragraph(writer, out, &mut reading, text, bounds, label);
        writer.path.truncate(depth);
        lists = lists.behind(look.item, grid.number, reading.begun);
        grid = grid.behind(standing);
        known = known_behind(standing, head);
    }
    reading.course.references
}

/// Writes the items of a paragraph behind its label, and goes to its end.
fn write_paragraph<K: Sink>(
    writer: &mut Writer<'_>,
    out: &mut K,
    reading: &mut Reading,
    text: &Text<'_>,
    bounds: Bounds,
    label: &[u16],
)
    requires parts { AreFullParts text.now.parts }
    requires walk { IsColumnWalk text.now.parts reading.old.course.walk reading.old.course.place }
    requires reading { IsReading text.now.manner (items_in text.now.parts) reading.old }
    requires ahead { reading.old.course.place ≤ bounds.end }
    requires within { bounds.end ≤ length text.now.parts.units.now }
    requires style { style_kind_at text.now.formats.now bounds.istd ≡ 1 }
    requires depth { length writer.old.path + 8 ≤ MAX_DEPTH }
    ensures place { reading.new.course.place ≡ bounds.end }
    ensures walk { IsColumnWalk text.now.parts reading.new.course.walk bounds.end }
    ensures reading { IsReading text.now.manner (items_in text.now.parts) reading.new }
    ensures path { writer.new.path ≡ writer.old.path }
    ensures origin { reading.new.origin ≡ reading.old.origin }
    ensures writes { (formats : Formats) → AreFormats text.now.formats.now formats → WritesItems K.Sink
        (at out.old writer.old reading.old) (at out.new writer.new reading.new)
        (links_in reading.old.origin (items_in text.now.parts)) writer.old.path label.now
        (seen_from formats text.now.manner bounds.istd (take reading.old.course.place (items_in text.now.parts))
        (slice_range (items_in text.now.parts) reading.old.course.place bounds.end)) }
{
    while reading.course.place < bounds.end {
        let alike = alike_from(&text.parts, &mut reading.course.walk, reading.course.place);
        let stretch = Stretch {
            until: alike.end.min(bounds.end),
            format: text.formats.format(bounds.istd, alike.chp),
            attached: alike.attached,
        };
        write_stretch(writer, out, reading, text, &stretch, label);
    }
}

/// Writes items that are alike, the first that is shown behind the label, and goes behind them.
fn write_stretch<K: Sink>(
    writer: &mut Writer<'_>,
    out: &mut K,
    reading: &mut Reading,
    text: &Text<'_>,
    stretch: &Stretch<'_>,
    label: &[u16],
)
    requires parts { AreFullParts text.now.parts }
    requires reading { IsReading text.now.manner (items_in text.now.parts) reading.old }
    requires ahead { reading.old.course.place ≤ stretch.now.until }
    requires within { stretch.now.until ≤ length text.now.parts.units.now }
    requires attached { HasAttached (items_in text.now.parts) reading.old.course.place stretch.now.until
        stretch.now.attached.now }
    requires depth { length writer.old.path + 8 ≤ MAX_DEPTH }
    ensures place { reading.new.course.place ≡ stretch.now.until }
    ensures walk { reading.new.course.walk ≡ reading.old.course.walk }
    ensures reading { IsReading text.now.manner (items_in text.now.parts) reading.new }
    ensures path { writer.new.path ≡ writer.old.path }
    ensures origin { reading.new.origin ≡ reading.old.origin }
    ensures writes { (formats : Formats) (istd : ℕ)
        → HasFormat formats istd (items_in text.now.parts) reading.old.course.place stretch.now.until stretch.now.format
        → WritesItems K.Sink
        (at out.old writer.old reading.old) (at out.new writer.new reading.new)
        (links_in reading.old.origin (items_in text.now.parts)) writer.old.path label.now
        (seen_from formats text.now.manner istd (take reading.old.course.place (items_in text.now.parts))
        (slice_range (items_in text.now.parts) reading.old.course.place stretch.now.until)) }
{
    while reading.course.place < stretch.until {
        write_some(writer, out, reading, text, stretch, label);
    }
}

/// Writes items of a stretch that are seen as their units together, or else the item of the place, behind the label where
/// the first is the first that is shown, and goes behind them.
fn write_some<K: Sink>(
    writer: &mut Writer<'_>,
    out: &mut K,
    reading: &mut Reading,
    text: &Text<'_>,
    stretch: &Stretch<'_>,
    label: &[u16],
)
    requires parts { AreFullParts text.now.parts }
    requires reading { IsReading text.now.manner (items_in text.now.parts) reading.old }
    requires ahead { reading.old.course.place < stretch.now.until }
    requires within { stretch.now.until ≤ length text.now.parts.units.now }
    requires attached { HasAttached (items_in text.now.parts) reading.old.course.place stretch.now.until
        stretch.now.attached.now }
    requires depth { length writer.old.path + 8 ≤ MAX_DEPTH }
    ensures ahead { reading.old.course.place < reading.new.course.place }
    ensures within { reading.new.course.place ≤ stretch.now.until }
    ensures walk { reading.new.course.walk ≡ reading.old.course.walk }
    ensures reading { IsReading text.now.manner (items_in text.now.parts) reading.new }
    ensures path { writer.new.path ≡ writer.old.path }
    ensures origin { reading.new.origin ≡ reading.old.origin }
    ensures writes { (formats : Formats) (istd : ℕ)
        → HasFormat formats istd (items_in text.now.parts) reading.old.course.place stretch.now.until stretch.now.format
        → WritesItems K.Sink
        (at out.old writer.old reading.old) (at out.new writer.new reading.new)
        (links_in reading.old.origin (items_in text.now.parts)) writer.old.path label.now
        (seen_from formats text.now.manner istd (take reading.old.course.place (items_in text.now.parts))
        (slice_range (items_in text.now.parts) reading.old.course.place reading.new.course.place)) }
{
    let count = reading.run_len(text, stretch);
    if count == 0 {
        write_item(writer, out, reading, text, stretch, label);
        return;
    }
    let place = reading.course.place;
    let end = place + count;
    let link = reading
        .origin
        .link(&reading.course.fields, reading.referred);
    writer.begin(out, true, reading.begun, label);
    writer.write_run(out, link, &stretch.format, &text.parts.units[place..end]);
    reading.begun = true;
    reading.course.place = end;
    reading.course.front.behind_label = false;
}

/// Writes the item of the place, behind the label where it is the first that is shown, and goes behind it.
fn write_item<K: Sink>(
    writer: &mut Writer<'_>,
    out: &mut K,
    reading: &mut Reading,
    text: &Text<'_>,
    stretch: &Stretch<'_>,
    label: &[u16],
)
    requires parts { AreFullParts text.now.parts }
    requires reading { IsReading text.now.manner (items_in text.now.parts) reading.old }
    requires ahead { reading.old.course.place < stretch.now.until }
    requires within { stretch.now.until ≤ length text.now.parts.units.now }
    requires attached { HasAttached (items_in text.now.parts) reading.old.course.place stretch.now.until
        stretch.now.attached.now }
    requires depth { length writer.old.path + 8 ≤ MAX_DEPTH }
    ensures place { reading.new.course.place ≡ reading.old.course.place + 1 }
    ensures walk { reading.new.course.walk ≡ reading.old.course.walk }
    ensures reading { IsReading text.now.manner (items_in text.now.parts) reading.new }
    ensures path { writer.new.path ≡ writer.old.path }
    ensures origin { reading.new.origin ≡ reading.old.origin }
    ensures writes { (formats : Formats) (istd : ℕ)
        → HasFormat formats istd (items_in text.now.parts) reading.old.course.place stretch.now.until stretch.now.format
        → WritesItems K.Sink
        (at out.old writer.old reading.old) (at out.new writer.new reading.new)
        (links_in reading.old.origin (items_in text.now.parts)) writer.old.path label.now
        (seen_from formats text.now.manner istd (take reading.old.course.place (items_in text.now.parts))
        (slice_range (items_in text.now.parts) reading.old.course.place (reading.old.course.place + 1))) }
{
    let unit = text.parts.units[reading.course.place];
    let seen = see(
        text.manner,
        &stretch.format,
        reading.course.front,
        unit,
        stretch.attached,
    );
    writer.begin(out, seen.is_shown, reading.begun, label);
    let link = reading
        .origin
        .link(&reading.course.fields, reading.referred);
    writer.write(out, link, reading.count, &seen);
    reading.begun = begun_behind(reading.begun, seen.is_shown);
    reading.course.pass(unit, stretch.attached, seen.reference);
    reading.count = count_behind(reading.count, seen.reference);
    reading.referred = referred_behind(reading.referred, reading.course.place, stretch.attached);
}

/// Whether something was written behind an item that is shown or not.
fn begun_behind(begun: bool, is_shown: bool) -> bool
    ensures { result ≡ (begun || is_shown) }
{
    begun || is_shown
}

/// Where the last reference to a note ends, at the end of an item with this beside it.
fn referred_behind(referred: usize, end: usize, attached: &Attached) -> usize
    ensures { result ≡ (if is_some attached.now.note then end else referred) }
{
    if attached.note.is_some() {
        end
    } else {
        referred
    }
}

/// How many references there are behind one more, or none.
fn count_behind(count: usize, reference: Option<Reference>) -> usize
    requires { count + 1 < 2 ^ 64 }
    ensures { result ≡ count + count_of reference }
{
    match reference {
        None => count,
        Some(_) => count + 1,
    }
}
