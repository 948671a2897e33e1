// A page in HTML that is printed place by place.
ghost use Rattle.std.specs.Prelude.{◌≡◌, ◌≤◌, ◌++◌, [], ◌∷◌, length, take, drop, map, false, true, Some, None, OnOk, OnErr};
ghost use Rattle.std.specs.Char.{IsScalar};
ghost use Rattle.std.specs.List.{All};
ghost use Rattle.doc_outer.specs.Counts.{CountGoesOn};
ghost use Rattle.doc_outer.specs.Written.{Appends};
ghost use Rattle.page_out.specs.Printed.{FailsIn, Prints};
ghost use Rattle.html_text.specs.Tokens.{printed};
ghost use Rattle.view_paths.specs.Events.{closes, opens, turns, Turn};
ghost use Rattle.view_paths.specs.Turns.{IsFront};
ghost use Rattle.view_places.specs.Same.{same};
ghost use Rattle.html_page.specs.Pages.{back_tokens, characters, close_tokens, front_tokens, glyph_half, glyph_tokens};
ghost use Rattle.html_page.specs.Pages.{half_of, open_tokens, style_tokens, tokens_of};
ghost use Rattle.html_page.specs.Printed.{PutsEvents, PutsPlaces};
ghost use Rattle.html_page.specs.Sources.{page_source_of};
ghost use Rattle.doc_pictures.specs.Files.{image_files};
ghost use Rattle.glyph_units.specs.Glyphs.{unit_places};
ghost use Rattle.glyph_units.specs.Units.{first_text, unit_half, unit_text, units_text};
ghost use Rattle.text_codes.specs.Halves.{half_text, first_half};

use crate::source::Source;
use crate::tokens::{
    push_back, push_character, push_close, push_front, push_open, push_other, push_style,
};
use crate::units::push_units;
use doc_outer::{OutBlock, Sink, SinkFailed};
use glyph_units::{REPLACEMENT, alone, unit_in};
use page_out::Page;
use text_codes::{is_high, pair};
use view_paths::Path;
use view_places::{Element, Glyph};

/// A page on its way to a sink: the elements that are open, and the first half of a character that waits for the other
/// one.
#[derive(Drop)]
pub struct HtmlPage<'a> {
    pub page: Page,
    pub path: Path<Element>,
    pub half: Option<u16>,
    pub source: Source<'a>,
}

impl<'a> HtmlPage<'a> {
    /// A page of which nothing was put.
    pub fn new(block: OutBlock, source: &Source<'a>) -> HtmlPage<'a>
        ensures page { result.page ≡ record { block = block; failed = false } }
        ensures path { result.path ≡ [] }
        ensures half { result.half ≡ None }
        ensures source { result.source ≡ source.now }
    {
        HtmlPage {
            page: Page::new(block),
            path: Path::new(Element::Notes),
            half: None,
            source: *source,
        }
    }

    /// Puts what is before the text of a page with this language, by its identifier of [MS-LCID], and this title, in
    /// units of UTF-16.
    pub fn begin<K: Sink>(&mut self, out: &mut K, language: Option<u16>, title: &[u16])
        requires { self.old.half ≡ None }
        ensures prints { Prints K.Sink out.old self.old.page out.new self.new.page
            (printed (front_tokens language ++ (characters (units_text None title.now) ++ style_tokens))) }
        ensures path { self.new.path ≡ self.old.path }
        ensures half { self.new.half ≡ None }
        ensures source { self.new.source ≡ self.old.source }
    {
        push_front(&mut self.page, out, language);
        self.put_units(out, title);
        push_style(&mut self.page, out);
    }

    /// Puts a place: closes and opens what differs, and shows its glyph.
    pub fn put<K: Sink>(&mut self, out: &mut K, to: &Path<Element>, glyph: Option<Glyph>)
        ensures { PutsPlaces K.Sink out.old self.old out.new self.new (record { path = to.now; glyph = glyph } ∷ []) }
    {
        self.go(out, to);
        match glyph {
            None => {}
            Some(glyph) => self.show(out, glyph),
        }
    }

    /// Puts units on one path, of which each is a character.
    pub fn put_run<K: Sink>(&mut self, out: &mut K, to: &Path<Element>, units: &[u16])
        requires { All IsScalar units.now }
        ensures { PutsPlaces K.Sink out.old self.old out.new self.new (unit_places to.now units.now) }
    {
        if units.is_empty() {
            return;
        }
        self.go(out, to);
        self.put_half(out);
        push_units(&mut self.page, out, units);
    }

    /// Closes all that is open, and puts what is behind the text.
    pub fn end<K: Sink>(&mut self, out: &mut K)
        ensures { Prints K.Sink out.old self.old.page out.new self.new.page
            (printed (tokens_of (page_source_of self.old.source) self.old.half (turns same self.old.path [])
            ++ (characters (half_text (half_of self.old.half (turns same self.old.path []))) ++ back_tokens))) }
    {
        self.go(out, &Path::new(Element::Notes));
        self.put_half(out);
        push_back(&mut self.page, out);
    }

    /// Lets the sink take what waits, and tells whether it failed at any time.
    pub fn finish<K: Sink>(self, out: &mut K) -> Result<(), SinkFailed>
        ensures right { OnOk result (self.entry.page.failed ≡ false) }
        ensures ok { OnOk result (Appends (K.written out.old) (K.written out.new) self.entry.page.block) }
        ensures fails { OnErr result (self.entry.page.failed ≡ false → FailsIn K.Sink out.old self.entry.page out.new []) }
        ensures stays { OnErr result (self.entry.page.failed ≡ true → K.written out.new ≡ K.written out.old) }
        ensures faults { CountGoesOn (K.faults out.old) (K.faults out.new) }
    {
        self.page.finish(out)
    }

    /// Closes and opens what differs.
    fn go<K: Sink>(&mut self, out: &mut K, to: &Path<Element>)
        ensures { PutsEvents K.Sink out.old self.old out.new self.new (turns same self.old.path to.now) to.now }
    {
        let shared = self.path.shared(to);
        self.close_to(out, shared);
        self.open_to(out, to);
    }

    /// Closes all but so many elements.
    fn close_to<K: Sink>(&mut self, out: &mut K, shared: usize)
        ensures { PutsEvents K.Sink out.old self.old out.new self.new
            (map Turn (closes (take shared self.old.path) (drop shared self.old.path))) (take shared self.old.path) }
    {
        match self.path.close_next(shared) {
            None => {}
            Some(element) => {
                self.put_close(out, element);
                self.close_to(out, shared);
            }
        }
    }

    /// Opens the elements of a path that are not open.
    fn open_to<K: Sink>(&mut self, out: &mut K, to: &Path<Element>)
        requires { IsFront self.old.path to.now }
        ensures { PutsEvents K.Sink out.old self.old out.new self.new
            (map Turn (opens self.old.path (drop (length self.old.path) to.now))) to.now }
    {
        match self.path.open_next(to) {
            None => {}
            Some(element) => {
                self.put_open(out, element);
                self.open_to(out, to);
            }
        }
    }

    /// Puts the end of an element.
    fn put_close<K: Sink>(&mut self, out: &mut K, element: Element)
        ensures prints { Prints K.Sink out.old self.old.page out.new self.new.page
            (printed (characters (half_text self.old.half) ++ close_tokens element)) }
        ensures path { self.new.path ≡ self.old.path }
        ensures half { self.new.half ≡ None }
        ensures source { self.new.source ≡ self.old.source }
    {
        self.put_half(out);
        push_close(&mut self.page, out, element);
    }

    /// Puts the start of an element.
    fn put_open<K: Sink>(&mut self, out: &mut K, element: Element)
        ensures prints { Prints K.Sink out.old self.old.page out.new self.new.page
            (printed (characters (half_text self.old.half) ++ open_tokens self.old.source.document.now element)) }
        ensures path { self.new.path ≡ self.old.path }
        ensures half { self.new.half ≡ None }
        ensures source { self.new.source ≡ self.old.source }
    {
        self.put_half(out);
        push_open(&mut self.page, out, self.source.document, element);
    }

    /// Puts the half that waits, which no other one follows.
    fn put_half<K: Sink>(&mut self, out: &mut K)
        ensures prints { Prints K.Sink out.old self.old.page out.new self.new.page
            (printed (characters (half_text self.old.half))) }
        ensures path { self.new.path ≡ self.old.path }
        ensures half { self.new.half ≡ None }
        ensures source { self.new.source ≡ self.old.source }
    {
        if self.half.is_some() {
            push_character(&mut self.page, out, REPLACEMENT);
        }
        self.half = None;
    }

    /// Puts a glyph.
    fn show<K: Sink>(&mut self, out: &mut K, glyph: Glyph)
        ensures prints { Prints K.Sink out.old self.old.page out.new self.new.page
            (printed (glyph_tokens (image_files self.old.source.images) self.old.half glyph)) }
        ensures path { self.new.path ≡ self.old.path }
        ensures half { self.new.half ≡ glyph_half self.old.half glyph }
        ensures source { self.new.source ≡ self.old.source }
    {
        match unit_in(glyph) {
            Some(unit) => self.put_unit(out, unit),
            None => {
                self.put_half(out);
                push_other(&mut self.page, out, &self.source.images, glyph);
            }
        }
    }

    /// Puts units, and the half that waits behind them.
    fn put_units<K: Sink>(&mut self, out: &mut K, units: &[u16])
        ensures prints { Prints K.Sink out.old self.old.page out.new self.new.page
            (printed (characters (units_text self.old.half units.now))) }
        ensures path { self.new.path ≡ self.old.path }
        ensures half { self.new.half ≡ None }
        ensures source { self.new.source ≡ self.old.source }
    {
        for unit in units {
            self.put_unit(out, *unit);
        }
        self.put_half(out);
    }

    /// Puts a unit, or lets it wait.
    fn put_unit<K: Sink>(&mut self, out: &mut K, unit: u16)
        ensures prints { Prints K.Sink out.old self.old.page out.new self.new.page
            (printed (characters (unit_text self.old.half unit))) }
        ensures path { self.new.path ≡ self.old.path }
        ensures half { self.new.half ≡ unit_half self.old.half unit }
        ensures source { self.new.source ≡ self.old.source }
    {
        match self.half {
            None => self.put_first(out, unit),
            Some(first) => self.put_second(out, first, unit),
        }
    }

    /// Puts a unit for which no half waits, or lets it wait.
    fn put_first<K: Sink>(&mut self, out: &mut K, unit: u16)
        ensures prints { Prints K.Sink out.old self.old.page out.new self.new.page
            (printed (characters (first_text unit))) }
        ensures path { self.new.path ≡ self.old.path }
        ensures half { self.new.half ≡ first_half unit }
        ensures source { self.new.source ≡ self.old.source }
    {
        if is_high(unit) {
            self.half = Some(unit);
        } else {
            self.half = None;
            push_character(&mut self.page, out, alone(unit));
        }
    }

    /// Puts a unit behind a half that waits.
    fn put_second<K: Sink>(&mut self, out: &mut K, first: u16, unit: u16)
        ensures prints { Prints K.Sink out.old self.old.page out.new self.new.page
            (printed (characters (unit_text (Some first) unit))) }
        ensures path { self.new.path ≡ self.old.path }
        ensures half { self.new.half ≡ unit_half (Some first) unit }
        ensures source { self.new.source ≡ self.old.source }
    {
        match pair(first, unit) {
            Some(code) => {
                self.half = None;
                push_character(&mut self.page, out, code);
            }
            None => {
                push_character(&mut self.page, out, REPLACEMENT);
                self.put_first(out, unit);
            }
        }
    }
}
