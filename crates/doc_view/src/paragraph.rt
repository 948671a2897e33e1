// A paragraph of a page.
ghost use Rattle.std.specs.Prelude.{◌≡◌, ℕ, List, ◌<◌, ◌++◌, [], ◌∷◌, true, false, if◌then◌else◌, Some, None};
ghost use Rattle.std.specs.Char.{IsScalar};
ghost use Rattle.std.specs.Fmt.{decimal};
ghost use Rattle.std.specs.List.{All};
ghost use Rattle.std.specs.Prelude.{◌&&◌, not, option_map};
ghost use Rattle.doc_view.specs.Glyphs.{glyphs_text};
ghost use Rattle.doc_view.specs.Labels.{break_text, label_glyph, label_glyphs, label_text, opening_text};
ghost use Rattle.doc_view.specs.Lines.{IsSaying, Says, glyph_said, other_said, shown_after};
ghost use Rattle.doc_view.specs.Lines.{begun_front, first_unit_said, saying_front, unit_in};
ghost use Rattle.doc_view.specs.Lines.{maybe_said, maybe_waits, shown_said, unit_said, unit_waits, waits_after};
ghost use Rattle.page_out.specs.Printed.{Prints};
ghost use Rattle.text_codes.specs.Halves.{is_high, is_surrogate, half_text, first_half};

use crate::labels::label_glyph;
use crate::line::{Lead, Line};
use crate::reading::Seen;
use doc_outer::Sink;
use list_numbers::{ListLabel, ParagraphValues};
use page_out::Page;
use text_codes::{SPACE, is_high, pair};
use view_places::Glyph;

/// The replacement character.
const REPLACEMENT: u32 = 0xFFFD;

/// A paragraph that is put: what is before it, its values, whether something of it was put, and the first half of a
/// character that waits for the other one.
#[derive(Clone, Copy)]
pub(crate) struct Saying<'a> {
    pub(crate) lead: Lead,
    pub(crate) line: Line,
    pub(crate) in_table: bool,
    pub(crate) values: Option<&'a ParagraphValues>,
    pub(crate) begun: bool,
    pub(crate) half: Option<u16>,
}

impl<'a> Saying<'a> {
    /// One of which nothing was put.
    pub(crate) fn new(
        lead: Lead,
        line: Line,
        in_table: bool,
        values: Option<&'a ParagraphValues>,
    ) -> Saying<'a>
        ensures { result ≡ record {
          lead = lead;
          line = line;
          in_table = in_table;
          values = values.entry;
          begun = false;
          half = None;
        } }
    {
        Saying {
            lead,
            line,
            in_table,
            values,
            begun: false,
            half: None,
        }
    }

    /// Puts what is seen of the next item.
    pub(crate) fn say<K: Sink>(&mut self, page: &mut Page, out: &mut K, seen: &Seen)
        requires { IsSaying self.old }
        ensures { (text : List ℕ) × (Prints K.Sink out.old page.old out.new page.new text
            × Says self.old (seen.now ∷ []) self.new text) }
    {
        if !seen.is_shown {
            return;
        }
        self.show(page, out, seen.glyph);
    }

    /// Puts what is shown next: a glyph, or nothing, which is something of the paragraph too.
    pub(crate) fn show<K: Sink>(&mut self, page: &mut Page, out: &mut K, glyph: Option<Glyph>)
        ensures said { Prints K.Sink out.old page.old out.new page.new (shown_said self.old glyph) }
        ensures after { self.new ≡ shown_after self.old glyph }
    {
        self.begin(page, out);
        match glyph {
            None => {}
            Some(glyph) => self.push_glyph(page, out, glyph),
        }
    }

    /// Puts units that are shown next, each as itself.
    pub(crate) fn show_units<K: Sink>(&mut self, page: &mut Page, out: &mut K, units: &[u16])
        requires { All IsScalar units.now }
        ensures said { Prints K.Sink out.old page.old out.new page.new (begun_front self.old ++ units.now) }
        ensures after { self.new ≡ record self.old { begun = true } }
    {
        self.begin(page, out);
        page.push_units(out, units);
    }

    /// Puts what is before the paragraph, as long as nothing of it was put.
    fn begin<K: Sink>(&mut self, page: &mut Page, out: &mut K)
        ensures said { Prints K.Sink out.old page.old out.new page.new (begun_front self.old) }
        ensures after { self.new ≡ record self.old { begun = true } }
    {
        if !self.begun {
            self.push_front(page, out);
        }
        self.begun = true;
    }

    /// Puts what is before the paragraph, and what is in front of its text.
    fn push_front<K: Sink>(self, page: &mut Page, out: &mut K)
        ensures { Prints K.Sink out.old page.old out.new page.new (saying_front self.entry) }
    {
        self.line.push_front(page, out, self.lead, self.in_table);
        push_opening(page, out, self.in_table, self.values);
    }

    /// Puts what is visible of a unit of a label.
    fn push_labelled<K: Sink>(&mut self, page: &mut Page, out: &mut K, unit: u16)
        ensures said { Prints K.Sink out.old page.old out.new page.new
            (maybe_said self.old.in_table self.old.half (label_glyph unit)) }
        ensures after { self.new ≡ record self.old { half = maybe_waits self.old.half (label_glyph unit) } }
    {
        match label_glyph(unit) {
            None => {}
            Some(glyph) => self.push_glyph(page, out, glyph),
        }
    }

    /// Puts a glyph.
    fn push_glyph<K: Sink>(&mut self, page: &mut Page, out: &mut K, glyph: Glyph)
        ensures said { Prints K.Sink out.old page.old out.new page.new (glyph_said self.old.in_table self.old.half glyph) }
        ensures after { self.new ≡ record self.old { half = waits_after self.old.half glyph } }
    {
        match unit_in(glyph) {
            Some(unit) => self.push_unit(page, out, unit),
            None => {
                self.push_half(page, out);
                push_other(page, out, self.in_table, glyph);
            }
        }
    }

    /// Puts a unit, or lets it wait.
    fn push_unit<K: Sink>(&mut self, page: &mut Page, out: &mut K, unit: u16)
        ensures said { Prints K.Sink out.old page.old out.new page.new (unit_said self.old.half unit) }
        ensures after { self.new ≡ record self.old { half = unit_waits self.old.half unit } }
    {
        match self.half {
            None => self.push_first(page, out, unit),
            Some(first) => self.push_second(page, out, first, unit),
        }
    }

    /// Puts a unit for which no half waits, or lets it wait.
    fn push_first<K: Sink>(&mut self, page: &mut Page, out: &mut K, unit: u16)
        ensures said { Prints K.Sink out.old page.old out.new page.new (first_unit_said unit) }
        ensures after { self.new ≡ record self.old { half = first_half unit } }
    {
        if is_high(unit) {
            self.half = Some(unit);
        } else {
            self.half = None;
            page.push_char(out, alone(unit));
        }
    }

    /// Puts a unit behind a half that waits.
    fn push_second<K: Sink>(&mut self, page: &mut Page, out: &mut K, first: u16, unit: u16)
        ensures said { Prints K.Sink out.old page.old out.new page.new (unit_said (Some first) unit) }
        ensures after { self.new ≡ record self.old { half = unit_waits (Some first) unit } }
    {
        match pair(first, unit) {
            Some(code) => {
                self.half = None;
                page.push_char(out, code);
            }
            None => {
                page.push_char(out, REPLACEMENT);
                self.push_first(page, out, unit);
            }
        }
    }

    /// Puts the half that waits, which no other one follows.
    fn push_half<K: Sink>(&mut self, page: &mut Page, out: &mut K)
        ensures said { Prints K.Sink out.old page.old out.new page.new (half_text self.old.half) }
        ensures after { self.new ≡ record self.old { half = None } }
    {
        if self.half.is_some() {
            page.push_char(out, REPLACEMENT);
        }
        self.half = None;
    }

    /// Puts what waits at the end of the paragraph.
    pub(crate) fn finish<K: Sink>(self, page: &mut Page, out: &mut K)
        ensures { Prints K.Sink out.old page.old out.new page.new (half_text self.entry.half) }
    {
        if self.half.is_some() {
            page.push_char(out, REPLACEMENT);
        }
    }
}

/// Puts what is in front of the text of a paragraph of these values.
fn push_opening<K: Sink>(
    page: &mut Page,
    out: &mut K,
    in_table: bool,
    values: Option<&ParagraphValues>,
)
    ensures { Prints K.Sink out.old page.old out.new page.new
        (opening_text in_table (option_map (λ v. v.now) values.entry)) }
{
    match values {
        None => {}
        Some(values) => push_values(page, out, in_table, values),
    }
}

/// Puts the break of a page and the label.
fn push_values<K: Sink>(page: &mut Page, out: &mut K, in_table: bool, values: &ParagraphValues)
    ensures { Prints K.Sink out.old page.old out.new page.new (opening_text in_table (Some values.now)) }
{
    push_page_break(page, out, in_table, values.breaks_page);
    push_label(page, out, in_table, &values.label);
}

/// Puts the break of a page, where there is one and the paragraph is in no table.
fn push_page_break<K: Sink>(page: &mut Page, out: &mut K, in_table: bool, breaks_page: bool)
    ensures { Prints K.Sink out.old page.old out.new page.new (break_text in_table breaks_page) }
{
    if has_break(in_table, breaks_page) {
        page.push_ascii(out, b"\x0C");
    }
}

fn has_break(in_table: bool, breaks_page: bool) -> bool
    ensures { result ≡ (breaks_page && not in_table) }
{
    breaks_page && !in_table
}

/// Puts a label, where there is one, and a space behind it.
fn push_label<K: Sink>(page: &mut Page, out: &mut K, in_table: bool, label: &Option<ListLabel>)
    ensures { Prints K.Sink out.old page.old out.new page.new (label_text in_table label.now) }
{
    match label {
        None => {}
        Some(label) => push_units(page, out, in_table, label.units.as_slice()),
    }
}

/// Puts what is visible of the units of a label, and a space behind them.
fn push_units<K: Sink>(page: &mut Page, out: &mut K, in_table: bool, units: &[u16])
    ensures { Prints K.Sink out.old page.old out.new page.new (glyphs_text in_table (label_glyphs units.now)) }
{
    let mut saying = Saying::new(Lead::none(), Line::new(), in_table, None);
    for unit in units {
        saying.push_labelled(page, out, *unit);
    }
    saying.push_glyph(page, out, Glyph::Unit(SPACE));
}

/// The unit that a glyph is, where it is one.
fn unit_in(glyph: Glyph) -> Option<u16>
    ensures { result ≡ unit_in glyph }
{
    match glyph {
        Glyph::Unit(unit) => Some(unit),
        Glyph::Tab => None,
        Glyph::LineBreak => None,
        Glyph::PageBreak => None,
        Glyph::NoteMark(_) => None,
        Glyph::Picture(_) => None,
        Glyph::Object => None,
    }
}

/// Puts a glyph that is no unit.
fn push_other<K: Sink>(page: &mut Page, out: &mut K, in_table: bool, glyph: Glyph)
    ensures { Prints K.Sink out.old page.old out.new page.new (other_said in_table glyph) }
{
    match glyph {
        Glyph::Unit(_) => {}
        Glyph::Tab => push_break(page, out, in_table, b'\t'),
        Glyph::LineBreak => push_break(page, out, in_table, b'\n'),
        Glyph::PageBreak => push_break(page, out, in_table, 0x0C),
        Glyph::NoteMark(number) => push_mark(page, out, number),
        Glyph::Picture(_) => page.push_ascii(out, b"[picture]"),
        Glyph::Object => page.push_ascii(out, b"[object]"),
    }
}

/// Puts a break: a space in a table.
fn push_break<K: Sink>(page: &mut Page, out: &mut K, in_table: bool, code: u8)
    requires { code < 128 }
    ensures { Prints K.Sink out.old page.old out.new page.new ((if in_table then 32 else code) ∷ []) }
{
    page.push_ascii(out, &[if in_table { b' ' } else { code }]);
}

/// Puts the number of a note where it is referred to.
fn push_mark<K: Sink>(page: &mut Page, out: &mut K, number: u32)
    ensures { Prints K.Sink out.old page.old out.new page.new (91 ∷ [] ++ (decimal number ++ 93 ∷ [])) }
{
    page.push_ascii(out, b"[");
    page.push_number(out, number as u64);
    page.push_ascii(out, b"]");
}

/// The character of a unit that is in no pair.
fn alone(unit: u16) -> u32
    ensures is { result ≡ (if is_surrogate unit then 0xFFFD else unit) }
    ensures scalar { IsScalar result }
{
    if unit >= 0xD800 && unit < 0xE000 {
        REPLACEMENT
    } else {
        unit as u32
    }
}
