// Places that are written as they come.
ghost use Rattle.std.specs.Prelude.{◌≡◌, ◌+◌, ◌^◌, ◌<◌, ◌≤◌, ◌++◌, [], ◌∷◌, length, not, ◌&&◌, map, if◌then◌else◌};
ghost use Rattle.std.specs.Char.{IsScalar};
ghost use Rattle.std.specs.List.{All, cons_option, filter_map};
ghost use Rattle.doc_view.specs.Labels.{label_glyph, label_glyphs};
ghost use Rattle.doc_places.specs.Places.{bare_place, format_elements, inline_elements, item_places, label_places};
ghost use Rattle.doc_places.specs.Places.{link_elements, shown_place};
ghost use Rattle.glyph_units.specs.Glyphs.{unit_places};
ghost use Rattle.view_places.specs.declared.element.Element.TheVariants.{Label};
ghost use Rattle.form_page.specs.Forms.{PutsPlaces};

use char_formats::CharFormat;
use doc_outer::Sink;
use doc_places::{push_inline, push_link};
use doc_view::{Seen, label_glyph};
use form_page::FormPage;
use text_codes::SPACE;
use view_paths::{MAX_DEPTH, Path};
use view_places::{Element, Glyph, Link};

/// A page, and the elements that what is written next is in.
#[derive(Drop)]
pub(crate) struct Writer<'a> {
    pub(crate) page: FormPage<'a>,
    pub(crate) path: Path<Element>,
}

impl Writer<'_> {
    /// Writes what is seen of an item in a link, behind so many references to notes.
    pub(crate) fn write<K: Sink>(
        &mut self,
        out: &mut K,
        link: Option<Link>,
        count: usize,
        seen: &Seen,
    )
        requires room { length self.old.path + 8 ≤ MAX_DEPTH }
        requires few { count + 1 < 2 ^ 64 }
        ensures path { self.new.path ≡ self.old.path }
        ensures puts { PutsPlaces K.Sink out.old self.old.page out.new self.new.page
            (item_places self.old.path link count seen.now) }
    {
        if !seen.is_shown {
            return;
        }
        match seen.glyph {
            None => self.write_bare(out, link),
            Some(glyph) => self.write_glyph(out, link, count, seen, glyph),
        }
    }

    /// Writes units of a format in a link, of which each is a character.
    pub(crate) fn write_run<K: Sink>(
        &mut self,
        out: &mut K,
        link: Option<Link>,
        format: &CharFormat,
        units: &[u16],
    )
        requires room { length self.old.path + 8 ≤ MAX_DEPTH }
        requires characters { All IsScalar units.now }
        ensures path { self.new.path ≡ self.old.path }
        ensures puts { PutsPlaces K.Sink out.old self.old.page out.new self.new.page
            (unit_places (self.old.path ++ (link_elements link ++ format_elements format.now)) units.now) }
    {
        let depth = self.path.len();
        push_inline(&mut self.path, link, 0, format, None);
        self.page.put_run(out, &self.path, units);
        self.path.truncate(depth);
    }

    /// Writes what is shown in a link without a glyph.
    fn write_bare<K: Sink>(&mut self, out: &mut K, link: Option<Link>)
        requires { length self.old.path + 8 ≤ MAX_DEPTH }
        ensures path { self.new.path ≡ self.old.path }
        ensures puts { PutsPlaces K.Sink out.old self.old.page out.new self.new.page
            (bare_place (self.old.path ++ link_elements link) ∷ []) }
    {
        let depth = self.path.len();
        push_link(&mut self.path, link);
        self.page.put(out, &self.path, None);
        self.path.truncate(depth);
    }

    /// Writes a label before an item that is shown or not, where something was written before or not.
    pub(crate) fn begin<K: Sink>(&mut self, out: &mut K, is_shown: bool, begun: bool, label: &[u16])
        requires room { length self.old.path + 8 ≤ MAX_DEPTH }
        ensures path { self.new.path ≡ self.old.path }
        ensures puts { PutsPlaces K.Sink out.old self.old.page out.new self.new.page
            (if is_shown && not begun then label_places self.old.path label.now else []) }
    {
        if !is_shown {
            return;
        }
        if begun {
            return;
        }
        self.write_some(out, label);
    }

    /// Writes a label, where it has units.
    fn write_some<K: Sink>(&mut self, out: &mut K, label: &[u16])
        requires room { length self.old.path + 8 ≤ MAX_DEPTH }
        ensures path { self.new.path ≡ self.old.path }
        ensures puts { PutsPlaces K.Sink out.old self.old.page out.new self.new.page
            (label_places self.old.path label.now) }
    {
        if label.is_empty() {
            return;
        }
        self.write_label(out, label);
    }

    /// Writes a label of some units, and a space behind it.
    fn write_label<K: Sink>(&mut self, out: &mut K, label: &[u16])
        requires room { length self.old.path + 8 ≤ MAX_DEPTH }
        ensures path { self.new.path ≡ self.old.path }
        ensures puts { PutsPlaces K.Sink out.old self.old.page out.new self.new.page
            (map (shown_place (self.old.path ++ Label ∷ [])) (label_glyphs label.now)) }
    {
        let depth = self.path.len();
        self.path.push(Element::Label);
        self.write_units(out, label);
        self.page.put(out, &self.path, Some(Glyph::Unit(SPACE)));
        self.path.truncate(depth);
    }

    /// Writes what is visible of the units of a label.
    fn write_units<K: Sink>(&mut self, out: &mut K, units: &[u16])
        ensures path { self.new.path ≡ self.old.path }
        ensures puts { PutsPlaces K.Sink out.old self.old.page out.new self.new.page
            (map (shown_place self.old.path) (filter_map label_glyph units.now)) }
    {
        for unit in units {
            self.write_unit(out, *unit);
        }
    }

    /// Writes what is visible of a unit of a label.
    fn write_unit<K: Sink>(&mut self, out: &mut K, unit: u16)
        ensures path { self.new.path ≡ self.old.path }
        ensures puts { PutsPlaces K.Sink out.old self.old.page out.new self.new.page
            (map (shown_place self.old.path) (cons_option (label_glyph unit) [])) }
    {
        match label_glyph(unit) {
            None => {}
            Some(glyph) => self.page.put(out, &self.path, Some(glyph)),
        }
    }

    /// Writes a glyph.
    fn write_glyph<K: Sink>(
        &mut self,
        out: &mut K,
        link: Option<Link>,
        count: usize,
        seen: &Seen,
        glyph: Glyph,
    )
        requires room { length self.old.path + 8 ≤ MAX_DEPTH }
        requires few { count + 1 < 2 ^ 64 }
        ensures path { self.new.path ≡ self.old.path }
        ensures puts { PutsPlaces K.Sink out.old self.old.page out.new self.new.page
            (shown_place (self.old.path ++ inline_elements link count seen.now.format seen.now.reference) glyph ∷ []) }
    {
        let depth = self.path.len();
        push_inline(&mut self.path, link, count, &seen.format, seen.reference);
        self.page.put(out, &self.path, Some(glyph));
        self.path.truncate(depth);
    }
}
