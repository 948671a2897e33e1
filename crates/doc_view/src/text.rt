// A text of a page: its paragraphs, one behind the other.
ghost use Rattle.std.specs.Prelude.{List, if◌then◌else◌};
ghost use Rattle.std.specs.Prelude.{◌≡◌, ℕ, ◌+◌, ◌^◌, ◌<◌, ◌≤◌, ◌++◌, [], ◌∷◌, length, take, Some, slice_get, slice_range};
ghost use Rattle.std.specs.Prelude.{slice_index, None, true};
ghost use Rattle.doc_view.specs.Blocks.{IsItself, shows_units};
ghost use Rattle.std.specs.List.{count_by};
ghost use Rattle.style_sheet.specs.Chain.{style_kind_at};
ghost use Rattle.doc_model.specs.declared.item.Item.{Item};
ghost use Rattle.plain_doc.specs.RightDocument.{HoldsAtItems};
ghost use Rattle.plain_doc.specs.RulesOfTexts.{HasParagraphStyle};
ghost use Rattle.doc_columns.specs.Walks.{items_in, AreFullParts, IsColumnWalk};
ghost use Rattle.doc_view.specs.Course.{CourseAt, HasAttached, HasFormat, HasRoomFor, IsCourse, PutsItems};
ghost use Rattle.doc_view.specs.Course.{course_after, has_reference, is_numbered};
ghost use Rattle.doc_view.specs.Layout.{layout_of, some_here};
ghost use Rattle.doc_view.specs.Lines.{IsSaying, lead_text};
ghost use Rattle.doc_view.specs.Page.{AreFormats};
ghost use Rattle.page_out.specs.Printed.{Prints};
ghost use Rattle.doc_view.specs.declared.reading.Manner.{Manner};
ghost use Rattle.doc_view.specs.Seen.{Formats, paragraphs_of, references_of, seen_from, with_values};

use crate::Reference;
use crate::glyph::itself_end;
use crate::line::{Lead, Line};
use crate::paragraph::Saying;
use crate::reading::{Front, Manner, NOTE_LABEL, see, shows_units};
use crate::references::References;
use crate::standing::{Standing, style_of};
use char_formats::{CharFormat, StyleFormats};
use doc_columns::{Attached, Parts, Walk, alike_from, paragraph_end};
use doc_outer::Sink;
use field_links::OpenFieldPlaces;
use list_numbers::ParagraphValuesList;
use page_out::Page;
use run_lists::{Cursor, seek};

/// A text, the formats of its styles, and how it is read.
#[derive(Drop)]
pub struct Text<'a> {
    pub parts: Parts<'a>,
    pub formats: &'a StyleFormats,
    pub manner: Manner,
}

/// Where the reading of a text is: its place, the columns there, what the items in front of it come to, and the notes
/// that they refer to.
#[derive(Drop)]
pub struct Course {
    pub place: usize,
    pub walk: Walk,
    pub fields: OpenFieldPlaces,
    pub front: Front,
    pub references: References,
}

/// Where a paragraph ends, and its style.
#[derive(Clone, Copy)]
pub struct Bounds {
    pub end: usize,
    pub istd: u16,
}

/// Items of one format and with the same beside them, up to a place.
#[derive(Drop)]
pub struct Stretch<'a> {
    pub until: usize,
    pub format: CharFormat,
    pub attached: &'a Attached,
}

impl Text<'_> {
    /// Puts the text behind its lead, its paragraphs with these values. It answers the notes that the text refers to, and
    /// whether something of it is here. It is linear in the units and the runs.
    pub(crate) fn push<K: Sink>(
        &self,
        page: &mut Page,
        out: &mut K,
        lead: Lead,
        references: References,
        values: &ParagraphValuesList,
    ) -> (References, bool)
        requires parts { AreFullParts self.now.parts }
        requires normal { style_kind_at self.now.formats.now 0 ≡ 1 }
        requires styles { HoldsAtItems (items_in self.now.parts)
            (λ i item. HasParagraphStyle self.now.formats.now item) }
        requires room { count_by (has_reference self.now.manner) (items_in self.now.parts) ≤ references.room }
        ensures text { (formats : Formats) → AreFormats self.now.formats.now formats
            → Prints K.Sink out.old page.old out.new page.new
            (layout_of (lead_text lead) (with_values values.now
            (paragraphs_of formats self.now.manner (items_in self.now.parts)))) }
        ensures references { (formats : Formats) → AreFormats self.now.formats.now formats → result.0.list
            ≡ references.list ++ references_of (with_values values.now
            (paragraphs_of formats self.now.manner (items_in self.now.parts))) }
        ensures some { (formats : Formats) → AreFormats self.now.formats.now formats
            → result.1 ≡ some_here (with_values values.now
            (paragraphs_of formats self.now.manner (items_in self.now.parts))) }
    {
        let len = self.parts.units.len();
        let mut course = Course::new(references);
        let mut marks = Cursor::new();
        let mut line = Line::new();
        let mut number = 0;
        while course.place < len {
            let end = paragraph_end(self.parts.attachments, &mut marks, course.place, len);
            let last = seek(self.parts.attachments, &mut marks, end - 1);
            let standing = Standing::of(self.parts.units[end - 1], &last.mark);
            let mut saying = Saying::new(lead, line, standing.is_in_table(), values.get(number));
            let bounds = Bounds {
                end,
                istd: style_of(&last.mark),
            };
            course.push_paragraph(page, out, &mut saying, self, bounds);
            saying.finish(page, out);
            line = line.behind(standing, saying.begun);
            number += 1;
        }
        line.push_end(page, out);
        (course.references, line.some)
    }
}

impl Course {
    /// At the start of a text.
    pub fn new(references: References) -> Course
        ensures place { result.place ≡ 0 }
        ensures walk { result.walk ≡ record {
          chps = record { run = 0; begin = 0 };
          attachments = record {
            run = 0;
            begin = 0;
          };
        } }
        ensures references { result.references ≡ references }
        ensures course { (manner : Manner) (items : List Item) → count_by (has_reference manner) items ≤ references.room
            → IsCourse manner items result }
    {
        Course {
            place: 0,
            walk: Walk::new(),
            fields: OpenFieldPlaces::new(),
            front: Front {
                in_results: true,
                behind_label: false,
                numbered: 0,
            },
            references,
        }
    }

    /// Puts the items of a paragraph, and goes to its end.
    fn push_paragraph<K: Sink>(
        &mut self,
        page: &mut Page,
        out: &mut K,
        saying: &mut Saying<'_>,
        text: &Text<'_>,
        bounds: Bounds,
    )
        requires parts { AreFullParts text.now.parts }
        requires walk { IsColumnWalk text.now.parts self.old.walk self.old.place }
        requires course { IsCourse text.now.manner (items_in text.now.parts) self.old }
        requires saying { IsSaying saying.old }
        requires ahead { self.old.place ≤ bounds.end }
        requires within { bounds.end ≤ length text.now.parts.units.now }
        requires style { style_kind_at text.now.formats.now bounds.istd ≡ 1 }
        ensures place { self.new.place ≡ bounds.end }
        ensures walk { IsColumnWalk text.now.parts self.new.walk bounds.end }
        ensures course { IsCourse text.now.manner (items_in text.now.parts) self.new }
        ensures saying { IsSaying saying.new }
        ensures passes { (formats : Formats) → AreFormats text.now.formats.now formats → PutsItems K.Sink
            (record { out = out.old; page = page.old; saying = saying.old; references = self.old.references.list })
            (record { out = out.new; page = page.new; saying = saying.new; references = self.new.references.list })
            (seen_from formats text.now.manner bounds.istd (take self.old.place (items_in text.now.parts))
            (slice_range (items_in text.now.parts) self.old.place bounds.end)) }
    {
        while self.place < bounds.end {
            let alike = alike_from(&text.parts, &mut self.walk, self.place);
            let stretch = Stretch {
                until: alike.end.min(bounds.end),
                format: text.formats.format(bounds.istd, alike.chp),
                attached: alike.attached,
            };
            self.push_stretch(page, out, saying, text, &stretch);
        }
    }

    /// Puts items that are alike, and goes behind them.
    fn push_stretch<K: Sink>(
        &mut self,
        page: &mut Page,
        out: &mut K,
        saying: &mut Saying<'_>,
        text: &Text<'_>,
        stretch: &Stretch<'_>,
    )
        requires parts { AreFullParts text.now.parts }
        requires course { IsCourse text.now.manner (items_in text.now.parts) self.old }
        requires saying { IsSaying saying.old }
        requires ahead { self.old.place ≤ stretch.now.until }
        requires within { stretch.now.until ≤ length text.now.parts.units.now }
        requires attached { HasAttached (items_in text.now.parts) self.old.place stretch.now.until
            stretch.now.attached.now }
        ensures place { self.new.place ≡ stretch.now.until }
        ensures walk { self.new.walk ≡ self.old.walk }
        ensures course { IsCourse text.now.manner (items_in text.now.parts) self.new }
        ensures saying { IsSaying saying.new }
        ensures passes { (formats : Formats) (istd : ℕ)
            → HasFormat formats istd (items_in text.now.parts) self.old.place stretch.now.until stretch.now.format
            → PutsItems K.Sink
            (record { out = out.old; page = page.old; saying = saying.old; references = self.old.references.list })
            (record { out = out.new; page = page.new; saying = saying.new; references = self.new.references.list })
            (seen_from formats text.now.manner istd (take self.old.place (items_in text.now.parts))
            (slice_range (items_in text.now.parts) self.old.place stretch.now.until)) }
    {
        while self.place < stretch.until {
            self.push_some(page, out, saying, text, stretch);
        }
    }

    /// Puts items of a stretch that are seen as their units together, or else one item, and goes behind them.
    fn push_some<K: Sink>(
        &mut self,
        page: &mut Page,
        out: &mut K,
        saying: &mut Saying<'_>,
        text: &Text<'_>,
        stretch: &Stretch<'_>,
    )
        requires parts { AreFullParts text.now.parts }
        requires course { IsCourse text.now.manner (items_in text.now.parts) self.old }
        requires saying { IsSaying saying.old }
        requires ahead { self.old.place < stretch.now.until }
        requires within { stretch.now.until ≤ length text.now.parts.units.now }
        requires attached { HasAttached (items_in text.now.parts) self.old.place stretch.now.until
            stretch.now.attached.now }
        ensures ahead { self.old.place < self.new.place }
        ensures within { self.new.place ≤ stretch.now.until }
        ensures walk { self.new.walk ≡ self.old.walk }
        ensures course { IsCourse text.now.manner (items_in text.now.parts) self.new }
        ensures saying { IsSaying saying.new }
        ensures passes { (formats : Formats) (istd : ℕ)
            → HasFormat formats istd (items_in text.now.parts) self.old.place stretch.now.until stretch.now.format
            → PutsItems K.Sink
            (record { out = out.old; page = page.old; saying = saying.old; references = self.old.references.list })
            (record { out = out.new; page = page.new; saying = saying.new; references = self.new.references.list })
            (seen_from formats text.now.manner istd (take self.old.place (items_in text.now.parts))
            (slice_range (items_in text.now.parts) self.old.place self.new.place)) }
    {
        let count = self.units_len(saying, text, stretch);
        if count == 0 {
            self.push_item(page, out, saying, text, stretch);
            return;
        }
        let end = self.place + count;
        saying.show_units(page, out, &text.parts.units[self.place..end]);
        self.place = end;
        self.front.behind_label = false;
    }

    /// How many items of a stretch are seen as their units from here on.
    fn units_len(&self, saying: &Saying<'_>, text: &Text<'_>, stretch: &Stretch<'_>) -> usize
        requires ahead { self.now.place ≤ stretch.now.until }
        requires within { stretch.now.until ≤ length text.now.parts.units.now }
        ensures within { self.now.place + result ≤ stretch.now.until }
        ensures whole { 0 < result → saying.now.half ≡ None }
        ensures shows { 0 < result
            → shows_units text.now.manner stretch.now.format self.now.front stretch.now.attached.now ≡ true }
        ensures units { (k : ℕ) → self.now.place ≤ k → k < self.now.place + result
            → IsItself (slice_index text.now.parts.units.now k) }
    {
        if saying.half.is_some() {
            return 0;
        }
        self.run_len(text, stretch)
    }

    /// How many items of a stretch are seen as their units from here on, whatever is before them.
    pub fn run_len(&self, text: &Text<'_>, stretch: &Stretch<'_>) -> usize
        requires ahead { self.now.place ≤ stretch.now.until }
        requires within { stretch.now.until ≤ length text.now.parts.units.now }
        ensures within { self.now.place + result ≤ stretch.now.until }
        ensures shows { 0 < result
            → shows_units text.now.manner stretch.now.format self.now.front stretch.now.attached.now ≡ true }
        ensures units { (k : ℕ) → self.now.place ≤ k → k < self.now.place + result
            → IsItself (slice_index text.now.parts.units.now k) }
    {
        if !shows_units(text.manner, &stretch.format, self.front, stretch.attached) {
            return 0;
        }
        itself_end(text.parts.units, self.place, stretch.until) - self.place
    }

    /// Puts the item of the place, and goes behind it.
    fn push_item<K: Sink>(
        &mut self,
        page: &mut Page,
        out: &mut K,
        saying: &mut Saying<'_>,
        text: &Text<'_>,
        stretch: &Stretch<'_>,
    )
        requires parts { AreFullParts text.now.parts }
        requires course { IsCourse text.now.manner (items_in text.now.parts) self.old }
        requires saying { IsSaying saying.old }
        requires ahead { self.old.place < stretch.now.until }
        requires within { stretch.now.until ≤ length text.now.parts.units.now }
        requires attached { HasAttached (items_in text.now.parts) self.old.place stretch.now.until
            stretch.now.attached.now }
        ensures place { self.new.place ≡ self.old.place + 1 }
        ensures walk { self.new.walk ≡ self.old.walk }
        ensures course { IsCourse text.now.manner (items_in text.now.parts) self.new }
        ensures saying { IsSaying saying.new }
        ensures passes { (formats : Formats) (istd : ℕ)
            → HasFormat formats istd (items_in text.now.parts) self.old.place stretch.now.until stretch.now.format
            → PutsItems K.Sink
            (record { out = out.old; page = page.old; saying = saying.old; references = self.old.references.list })
            (record { out = out.new; page = page.new; saying = saying.new; references = self.new.references.list })
            (seen_from formats text.now.manner istd (take self.old.place (items_in text.now.parts))
            (slice_range (items_in text.now.parts) self.old.place (self.old.place + 1))) }
    {
        let unit = text.parts.units[self.place];
        let seen = see(
            text.manner,
            &stretch.format,
            self.front,
            unit,
            stretch.attached,
        );
        saying.say(page, out, &seen);
        self.pass(unit, stretch.attached, seen.reference);
    }

    /// Goes behind an item.
    pub fn pass(&mut self, unit: u16, attached: &Attached, reference: Option<Reference>)
        requires place { self.old.place + 1 < 2 ^ 32 }
        requires numbered { self.old.front.numbered + 1 < 2 ^ 32 }
        requires room { HasRoomFor self.old.references reference }
        ensures { self.new ≡ course_after self.old unit attached.now reference }
    {
        self.fields.pass(self.place as u32, unit, attached.fld);
        self.front = Front {
            in_results: self.fields.is_in_results(),
            behind_label: unit == NOTE_LABEL,
            numbered: numbered_after(self.front.numbered, reference),
        };
        if let Some(reference) = reference {
            self.references.add(reference);
        }
        self.place += 1;
    }
}

/// One more behind a reference to a numbered note.
fn numbered_after(numbered: u32, reference: Option<Reference>) -> u32
    requires { numbered + 1 < 2 ^ 32 }
    ensures { result ≡ numbered + (if is_numbered reference then 1 else 0) }
{
    match reference {
        None => numbered,
        Some(reference) => {
            if reference.number.is_some() {
                numbered + 1
            } else {
                numbered
            }
        }
    }
}
