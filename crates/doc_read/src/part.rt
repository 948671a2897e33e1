// A text from a CP on.
ghost use Rattle.std.specs.Prelude.{◌≡◌, ◌+◌, ◌<◌, ◌≤◌, ℕ, drop, length, slice_index, slice_range};
ghost use Rattle.doc_read.specs.Reading.{IsReadable, ArePassed, text_view};

use crate::entries::next_cp;
use crate::reading::{PlcCursors, TextSource};
use direct_props::Places;
use std::marker::Model;

/// A text that can be read, and the places of its units from a CP on.
#[derive(Drop)]
pub struct TextPart<'a> {
    text: &'a TextSource<'a>,
    from: usize,
    places: Places<'a>,
}

impl<'a> Model for TextPart<'a> {
    ghost use Rattle.std.specs.Coded.{codes};
    ghost use Rattle.prop_map.specs.Settings.{properties_code};
    ghost use Rattle.doc_model.specs.contracts.item.NoteKind as note;
    ghost use Rattle.doc_read.specs.Reading.{TextRest, IsTextPart, text_view};

    ghost Value = { TextRest };

    ghost coded = { Prim.hlevel (codes, properties_code, note.the_row.coded) };

    ghost view = { λ p. record { view = text_view p.text.now; from = p.from } };

    ghost invariant = { λ p. IsTextPart (text_view p.text.now) p.from p.places };
}

impl<'a> TextPart<'a> {
    /// The text from a CP on, with the places of its units.
    pub(crate) fn new(text: &'a TextSource<'a>, from: usize, places: Places<'a>) -> TextPart<'a>
        requires readable { IsReadable (text_view text.now) }
        requires places { places ≡ drop from text.now.places }
        ensures { result ≡ record { view = text_view text.now; from = from } }
    {
        TextPart { text, from, places }
    }

    /// The text.
    pub(crate) fn text(&self) -> &TextSource<'a>
        ensures view { text_view result.now ≡ self.now.view }
        ensures readable { IsReadable (text_view result.now) }
    {
        self.text
    }

    /// The place of the unit of a CP.
    pub(crate) fn place(&self, cp: usize) -> u32
        requires from { self.now.from ≤ cp }
        requires within { cp < length self.now.view.units }
        ensures { result ≡ slice_index self.now.view.places cp }
    {
        self.places.get(cp - self.from)
    }

    /// The places of the first units.
    pub(crate) fn front(&self, count: usize) -> Places<'a>
        requires { self.now.from + count ≤ length self.now.view.units }
        ensures places { result ≡ slice_range self.now.view.places self.now.from (self.now.from + count) }
        ensures within { self.now.from + count ≤ length self.now.view.places }
        ensures few { self.now.from + count ≤ 500000 }
    {
        self.places.front(count)
    }

    /// The next CP where something is, or the greatest number.
    pub(crate) fn next_marked(&self, passed: &PlcCursors) -> u32
        ensures { (cp at : ℕ) → ArePassed self.now.view.marks passed.now cp → cp ≤ at → at ≤ result
            → ArePassed self.now.view.marks passed.now at }
    {
        let marks = self.text.marks;
        let field = next_cp(&marks.field_cps, passed.field);
        let note = next_cp(&marks.note_cps, passed.note);
        let section = next_cp(&marks.section_cps, passed.section);
        field.min(note).min(section)
    }
}
