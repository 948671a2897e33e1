// A page in one of its forms.
ghost use Rattle.std.specs.Prelude.{◌≡◌, ◌∷◌, [], false, true, None, OnOk, OnErr};
ghost use Rattle.std.specs.Char.{IsScalar};
ghost use Rattle.std.specs.List.{All};
ghost use Rattle.glyph_units.specs.Glyphs.{unit_places};
ghost use Rattle.glyph_units.specs.Units.{units_text};
ghost use Rattle.doc_outer.specs.Counts.{CountGoesOn};
ghost use Rattle.doc_outer.specs.Written.{Appends};
ghost use Rattle.page_out.specs.Printed.{FailsIn};
ghost use Rattle.html_page.specs.Sources.{page_source_of};
ghost use Rattle.form_page.specs.Forms.{Begins, Ends, HasNoHalf, IsFresh, PutsPlaces, page_form_of, page_in};

use doc_outer::{OutBlock, Sink, SinkFailed};
use html_page::{HtmlPage, Source};
use markdown_page::MarkdownPage;
use view_paths::Path;
use view_places::{Element, Glyph};

/// The form of a page.
#[derive(Clone, Copy)]
pub enum PageForm {
    Html,
    Markdown,
}

/// A page on its way to a sink.
#[derive(Drop)]
pub enum FormPage<'a> {
    Html(HtmlPage<'a>),
    Markdown(MarkdownPage<'a>),
}

impl<'a> FormPage<'a> {
    /// A page of which nothing was put. Pictures are named by their files in HTML alone.
    pub fn new(form: PageForm, block: OutBlock, source: &Source<'a>) -> FormPage<'a>
        ensures form { page_form_of result ≡ form }
        ensures fresh { IsFresh result block (page_source_of source.now) }
    {
        match form {
            PageForm::Html => FormPage::Html(HtmlPage::new(block, source)),
            PageForm::Markdown => FormPage::Markdown(MarkdownPage::new(block, source.document)),
        }
    }

    /// Puts what is before the text of a page with this language, by its identifier of [MS-LCID], and this title, in
    /// units of UTF-16.
    pub fn begin<K: Sink>(&mut self, out: &mut K, language: Option<u16>, title: &[u16])
        requires { HasNoHalf self.old }
        ensures { Begins K.Sink out.old self.old out.new self.new
            (record { language = language; title = units_text None title.now }) }
    {
        match self {
            FormPage::Html(page) => page.begin(out, language, title),
            FormPage::Markdown(_) => {}
        }
    }

    /// Puts a place: closes and opens what differs, and shows its glyph.
    pub fn put<K: Sink>(&mut self, out: &mut K, to: &Path<Element>, glyph: Option<Glyph>)
        ensures { PutsPlaces K.Sink out.old self.old out.new self.new (record { path = to.now; glyph = glyph } ∷ []) }
    {
        match self {
            FormPage::Html(page) => page.put(out, to, glyph),
            FormPage::Markdown(page) => page.put(out, to, glyph),
        }
    }

    /// Puts units on one path, of which each is a character.
    pub fn put_run<K: Sink>(&mut self, out: &mut K, to: &Path<Element>, units: &[u16])
        requires { All IsScalar units.now }
        ensures { PutsPlaces K.Sink out.old self.old out.new self.new (unit_places to.now units.now) }
    {
        match self {
            FormPage::Html(page) => page.put_run(out, to, units),
            FormPage::Markdown(page) => page.put_run(out, to, units),
        }
    }

    /// Closes all that is open, and puts what is behind the text.
    pub fn end<K: Sink>(&mut self, out: &mut K)
        ensures { Ends K.Sink out.old self.old out.new self.new }
    {
        match self {
            FormPage::Html(page) => page.end(out),
            FormPage::Markdown(page) => page.end(out),
        }
    }

    /// Lets the sink take what waits, and tells whether it failed at any time.
    pub fn finish<K: Sink>(self, out: &mut K) -> Result<(), SinkFailed>
        ensures right { OnOk result ((page_in self.entry).failed ≡ false) }
        ensures ok { OnOk result (Appends (K.written out.old) (K.written out.new) (page_in self.entry).block) }
        ensures fails { OnErr result ((page_in self.entry).failed ≡ false → FailsIn K.Sink out.old (page_in self.entry) out.new []) }
        ensures stays { OnErr result ((page_in self.entry).failed ≡ true → K.written out.new ≡ K.written out.old) }
        ensures faults { CountGoesOn (K.faults out.old) (K.faults out.new) }
    {
        match self {
            FormPage::Html(page) => page.finish(out),
            FormPage::Markdown(page) => page.finish(out),
        }
    }
}
