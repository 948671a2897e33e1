// A page in Markdown that is printed place by place.
ghost use Rattle.std.specs.Prelude.{◌≡◌, ◌<◌, ◌≤◌, ◌&&◌, [], ◌∷◌, ◌++◌, length, take, drop, map, false, true, Some, None};
ghost use Rattle.std.specs.Prelude.{not, slice_range, OnOk, OnErr};
ghost use Rattle.std.specs.Char.{IsScalar};
ghost use Rattle.doc_outer.specs.Counts.{CountGoesOn};
ghost use Rattle.doc_outer.specs.Written.{Appends};
ghost use Rattle.page_out.specs.Printed.{FailsIn};
ghost use Rattle.markdown_text.specs.declared.line.LineState.TheVariants.{Start};
ghost use Rattle.view_paths.specs.Events.{closes, opens, turns, Turn, Open, Close};
ghost use Rattle.view_paths.specs.Turns.{IsFront};
ghost use Rattle.view_places.specs.Same.{same};
ghost use Rattle.glyph_units.specs.Glyphs.{leaves, unit_in, unit_places};
ghost use Rattle.glyph_units.specs.Units.{first_text, unit_half, unit_text};
ghost use Rattle.markdown_page.specs.Pages.{closing_tokens, fresh, glyph_shown, glyph_tokens, half_tokens};
ghost use Rattle.std.specs.List.{All};
ghost use Rattle.markdown_page.specs.Runs.{IsPlainCharacter, has_emphasis, is_open_line};
ghost use Rattle.markdown_page.specs.Shape.{inner_kind, is_from_note};
ghost use Rattle.markdown_page.specs.Destinations.{address_at, link_end_tokens, link_front_tokens};
ghost use Rattle.markdown_page.specs.Pages.{text_seam, text_tokens, turn_tokens, turned_context};
ghost use Rattle.markdown_page.specs.Pages.{unit_shown, unit_tokens, without_half};
ghost use Rattle.markdown_page.specs.Printed.{PutsEvents, PutsPlaces, PutsTokens, state_in};
ghost use Rattle.text_codes.specs.Halves.{first_half};

use crate::context::{Context, character_seam};
use crate::destinations::address_at;
use crate::marks::TagName;
use crate::pen::Pen;
use crate::pieces::{Piece, closing, if_given, opening, other_pieces};
use crate::runs::{is_open, run_end};
use crate::shape::{has_emphasis, inner_kind, is_from_note, is_white, shaped_glyph, shaped_path};
use doc_columns::ColumnDocument;
use doc_outer::{OutBlock, Sink, SinkFailed};
use glyph_units::{REPLACEMENT, alone, unit_in};
use text_codes::{is_high, pair};
use view_paths::Path;
use view_places::{Element, Glyph};

/// A page on its way to a sink: the elements that are open, and what is before the next place.
#[derive(Drop)]
pub struct MarkdownPage<'a> {
    pub pen: Pen,
    pub path: Path<Element>,
    pub context: Context,
    /// The document that it is a page of.
    pub document: &'a ColumnDocument,
}

impl<'a> MarkdownPage<'a> {
    /// A page of a document of which nothing was put.
    pub fn new(block: OutBlock, document: &'a ColumnDocument) -> MarkdownPage<'a>
        ensures pen { result.pen ≡ record { page = record { block = block; failed = false }; line = Start } }
        ensures path { result.path ≡ [] }
        ensures context { result.context ≡ fresh }
        ensures document { result.document.now ≡ document.now }
    {
        MarkdownPage {
            pen: Pen::new(block),
            path: Path::new(Element::Notes),
            context: Context::new(),
            document,
        }
    }

    /// Puts a place: closes and opens what differs, and shows its glyph.
    pub fn put<K: Sink>(&mut self, out: &mut K, to: &Path<Element>, glyph: Option<Glyph>)
        ensures { PutsPlaces K.Sink out.old self.old out.new self.new (record { path = to.now; glyph = glyph } ∷ []) }
    {
        let shaped = shaped_path(glyph, to);
        self.go(out, &shaped);
        match shaped_glyph(inner_kind(to), glyph) {
            None => {}
            Some(glyph) => self.show(out, glyph),
        }
    }

    /// Puts units on one path, of which each is a character.
    pub fn put_run<K: Sink>(&mut self, out: &mut K, to: &Path<Element>, units: &[u16])
        requires { All IsScalar units.now }
        ensures { PutsPlaces K.Sink out.old self.old out.new self.new (unit_places to.now units.now) }
    {
        let in_emphasis = has_emphasis(to);
        let mut done = 0;
        while done < units.len() {
            done = self.put_some(out, to, in_emphasis, units, done);
        }
    }

    /// Puts a unit, and together those that go on behind it on the same path, in emphasis or not, and answers where they
    /// end.
    fn put_some<K: Sink>(
        &mut self,
        out: &mut K,
        to: &Path<Element>,
        in_emphasis: bool,
        units: &[u16],
        from: usize,
    ) -> usize
        requires characters { All IsScalar units.now }
        requires within { from < length units.now }
        requires emphasis { in_emphasis ≡ false → has_emphasis to.now ≡ false }
        ensures ahead { from < result }
        ensures within { result ≤ length units.now }
        ensures puts { PutsPlaces K.Sink out.old self.old out.new self.new
            (unit_places to.now (slice_range units.now from result)) }
    {
        self.put(out, to, Some(Glyph::Unit(units[from])));
        if !self.goes_on(to) {
            return from + 1;
        }
        let end = run_end(units, from, in_emphasis, is_white(units[from]));
        self.put_plain(out, &units[from + 1..end]);
        end
    }

    /// Whether units are written as they are behind one on a path.
    fn goes_on(&self, to: &Path<Element>) -> bool
        ensures { result ≡ (is_open_line self.now.pen.line self.now.context && not (is_from_note (inner_kind to.now))) }
    {
        is_open(self.pen.line, &self.context) && !is_from_note(inner_kind(to))
    }

    /// Puts units that are written as they are on the path that is open.
    fn put_plain<K: Sink>(&mut self, out: &mut K, units: &[u16])
        requires characters { All IsScalar units.now }
        requires line { is_open_line self.old.pen.line self.old.context ≡ true }
        requires plain { All IsPlainCharacter units.now }
        ensures { PutsEvents K.Sink out.old self.old out.new self.new (leaves self.old.path units.now) self.old.path }
    {
        if units.is_empty() {
            return;
        }
        self.pen.put_plain(out, units);
        self.context.seam = character_seam(units[units.len() - 1] as u32);
    }

    /// Closes all that is open.
    pub fn end<K: Sink>(&mut self, out: &mut K)
        ensures { PutsTokens K.Sink out.old self.old.pen out.new self.new.pen
            (closing_tokens (state_in self.old) self.old.path) }
    {
        self.go(out, &Path::new(Element::Notes));
        self.put_half(out);
    }

    /// Lets the sink take what waits, and tells whether it failed at any time.
    pub fn finish<K: Sink>(self, out: &mut K) -> Result<(), SinkFailed>
        ensures right { OnOk result (self.entry.pen.page.failed ≡ false) }
        ensures ok { OnOk result (Appends (K.written out.old) (K.written out.new) self.entry.pen.page.block) }
        ensures fails { OnErr result (self.entry.pen.page.failed ≡ false → FailsIn K.Sink out.old self.entry.pen.page out.new []) }
        ensures stays { OnErr result (self.entry.pen.page.failed ≡ true → K.written out.new ≡ K.written out.old) }
        ensures faults { CountGoesOn (K.faults out.old) (K.faults out.new) }
    {
        self.pen.page.finish(out)
    }

    /// Closes and opens what differs.
    fn go<K: Sink>(&mut self, out: &mut K, to: &Path<Element>)
        ensures { PutsEvents K.Sink out.old self.old out.new self.new (turns same self.old.path to.now) to.now }
    {
        let shared = self.path.shared(to);
        self.close_to(out, shared);
        self.open_to(out, to);
    }

    /// Closes all but so many elements.
    fn close_to<K: Sink>(&mut self, out: &mut K, shared: usize)
        ensures { PutsEvents K.Sink out.old self.old out.new self.new
            (map Turn (closes (take shared self.old.path) (drop shared self.old.path))) (take shared self.old.path) }
    {
        match self.path.close_next(shared) {
            None => {}
            Some(element) => {
                self.put_close(out, element);
                self.close_to(out, shared);
            }
        }
    }

    /// Opens the elements of a path that are not open.
    fn open_to<K: Sink>(&mut self, out: &mut K, to: &Path<Element>)
        requires { IsFront self.old.path to.now }
        ensures { PutsEvents K.Sink out.old self.old out.new self.new
            (map Turn (opens self.old.path (drop (length self.old.path) to.now))) to.now }
    {
        match self.path.open_next(to) {
            None => {}
            Some(element) => {
                self.put_open(out, element);
                self.open_to(out, to);
            }
        }
    }

    /// Puts the end of an element.
    fn put_close<K: Sink>(&mut self, out: &mut K, element: Element)
        ensures puts { PutsTokens K.Sink out.old self.old.pen out.new self.new.pen
            (turn_tokens (state_in self.old) (Close [] element)) }
        ensures path { self.new.path ≡ self.old.path }
        ensures document { self.new.document.now ≡ self.old.document.now }
        ensures context { self.new.context ≡ turned_context (Close [] element) (without_half self.old.context) }
    {
        self.put_half(out);
        let pieces = closing(self.pen.line, &self.context, element);
        self.context = self.context.closed(element);
        self.pen.put_pieces(out, pieces);
        self.put_link_end(out, element);
    }

    /// Puts the start of an element.
    fn put_open<K: Sink>(&mut self, out: &mut K, element: Element)
        ensures puts { PutsTokens K.Sink out.old self.old.pen out.new self.new.pen
            (turn_tokens (state_in self.old) (Open [] element)) }
        ensures path { self.new.path ≡ self.old.path }
        ensures document { self.new.document.now ≡ self.old.document.now }
        ensures context { self.new.context ≡ turned_context (Open [] element) (without_half self.old.context) }
    {
        self.put_half(out);
        let pieces = opening(&self.context, element);
        self.context = self.context.opened(element);
        self.pen.put_pieces(out, pieces);
        self.put_link_front(out, element);
    }

    /// Puts what is before the text of a link that leads somewhere.
    fn put_link_front<K: Sink>(&mut self, out: &mut K, element: Element)
        ensures puts { PutsTokens K.Sink out.old self.old.pen out.new self.new.pen
            (link_front_tokens (address_at self.old.document.now element)) }
        ensures path { self.new.path ≡ self.old.path }
        ensures document { self.new.document.now ≡ self.old.document.now }
        ensures context { self.new.context ≡ self.old.context }
    {
        match address_at(self.document, element) {
            None => {}
            Some(_) => self.pen.put_link_front(out),
        }
    }

    /// Puts what is behind the text of a link that leads somewhere.
    fn put_link_end<K: Sink>(&mut self, out: &mut K, element: Element)
        ensures puts { PutsTokens K.Sink out.old self.old.pen out.new self.new.pen
            (link_end_tokens (address_at self.old.document.now element)) }
        ensures path { self.new.path ≡ self.old.path }
        ensures document { self.new.document.now ≡ self.old.document.now }
        ensures context { self.new.context ≡ self.old.context }
    {
        match address_at(self.document, element) {
            None => {}
            Some(url) => self.pen.put_link_end(out, url),
        }
    }

    /// Puts the half that waits, which no other one follows.
    fn put_half<K: Sink>(&mut self, out: &mut K)
        ensures puts { PutsTokens K.Sink out.old self.old.pen out.new self.new.pen (half_tokens self.old.context) }
        ensures path { self.new.path ≡ self.old.path }
        ensures document { self.new.document.now ≡ self.old.document.now }
        ensures context { self.new.context ≡ without_half self.old.context }
    {
        match self.context.half {
            None => {}
            Some(_) => {
                self.put_character(out, REPLACEMENT);
                self.context.half = None;
            }
        }
    }

    /// Puts a character of the text.
    fn put_character<K: Sink>(&mut self, out: &mut K, code: u32)
        requires { IsScalar code }
        ensures puts { PutsTokens K.Sink out.old self.old.pen out.new self.new.pen
            (text_tokens self.old.context.seam (code ∷ [])) }
        ensures path { self.new.path ≡ self.old.path }
        ensures document { self.new.document.now ≡ self.old.document.now }
        ensures context { self.new.context ≡ record self.old.context { seam = text_seam self.old.context.seam (code ∷ []) } }
    {
        let piece = if_given(
            self.context.seam.is_parted(code),
            Piece::Insert(TagName::Comment),
        );
        self.pen.put_piece(out, piece);
        self.pen.put_character(out, code);
        self.context.seam = character_seam(code);
    }

    /// Puts a glyph.
    fn show<K: Sink>(&mut self, out: &mut K, glyph: Glyph)
        ensures puts { PutsTokens K.Sink out.old self.old.pen out.new self.new.pen
            (glyph_tokens (state_in self.old) (unit_in glyph) glyph) }
        ensures path { self.new.path ≡ self.old.path }
        ensures document { self.new.document.now ≡ self.old.document.now }
        ensures context { self.new.context ≡ glyph_shown self.old.context (unit_in glyph) }
    {
        match unit_in(glyph) {
            Some(unit) => self.put_unit(out, unit),
            None => self.put_other(out, glyph),
        }
    }

    /// Puts a glyph that is no unit.
    fn put_other<K: Sink>(&mut self, out: &mut K, glyph: Glyph)
        ensures puts { PutsTokens K.Sink out.old self.old.pen out.new self.new.pen
            (glyph_tokens (state_in self.old) None glyph) }
        ensures path { self.new.path ≡ self.old.path }
        ensures document { self.new.document.now ≡ self.old.document.now }
        ensures context { self.new.context ≡ glyph_shown self.old.context None }
    {
        self.put_half(out);
        let pieces = other_pieces(self.pen.line, glyph);
        self.context = self.context.cut();
        self.pen.put_pieces(out, pieces);
    }

    /// Puts a unit, or lets it wait.
    fn put_unit<K: Sink>(&mut self, out: &mut K, unit: u16)
        ensures puts { PutsTokens K.Sink out.old self.old.pen out.new self.new.pen (unit_tokens self.old.context unit) }
        ensures path { self.new.path ≡ self.old.path }
        ensures document { self.new.document.now ≡ self.old.document.now }
        ensures context { self.new.context ≡ unit_shown self.old.context unit }
    {
        match self.context.half {
            None => self.put_first(out, unit),
            Some(first) => self.put_second(out, first, unit),
        }
    }

    /// Puts a unit for which no half waits, or lets it wait.
    fn put_first<K: Sink>(&mut self, out: &mut K, unit: u16)
        ensures puts { PutsTokens K.Sink out.old self.old.pen out.new self.new.pen
            (text_tokens self.old.context.seam (first_text unit)) }
        ensures path { self.new.path ≡ self.old.path }
        ensures document { self.new.document.now ≡ self.old.document.now }
        ensures context { self.new.context ≡ record self.old.context {
          half = first_half unit;
          seam = text_seam self.old.context.seam (first_text unit);
        } }
    {
        if is_high(unit) {
            self.context.half = Some(unit);
        } else {
            self.context.half = None;
            self.put_character(out, alone(unit));
        }
    }

    /// Puts a unit behind a half that waits.
    fn put_second<K: Sink>(&mut self, out: &mut K, first: u16, unit: u16)
        ensures puts { PutsTokens K.Sink out.old self.old.pen out.new self.new.pen
            (text_tokens self.old.context.seam (unit_text (Some first) unit)) }
        ensures path { self.new.path ≡ self.old.path }
        ensures document { self.new.document.now ≡ self.old.document.now }
        ensures context { self.new.context ≡ record self.old.context {
          half = unit_half (Some first) unit;
          seam = text_seam self.old.context.seam (unit_text (Some first) unit);
        } }
    {
        match pair(first, unit) {
            Some(code) => {
                self.context.half = None;
                self.put_character(out, code);
            }
            None => {
                self.put_character(out, REPLACEMENT);
                self.put_first(out, unit);
            }
        }
    }
}
