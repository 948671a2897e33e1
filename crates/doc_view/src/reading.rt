// What is seen of an item.
ghost use Rattle.std.specs.Prelude.{◌≡◌, ◌+◌, ◌^◌, ◌<◌, ◌==◌, ◌&&◌, not};
ghost use Rattle.text_codes.specs.Paragraph.{cell_mark};
ghost use Rattle.plain_doc.specs.Rows.{is_byte_one, mark_value_in};
ghost use Rattle.prop_map.specs.Settings.{Properties};
ghost use Rattle.doc_columns.specs.Columns.{item_of};
ghost use Rattle.doc_view.specs.Blocks.{shows_units};
ghost use Rattle.doc_view.specs.Seen.{counts, is_header, is_label, is_main, is_note, is_shown, reference_kind};
ghost use Rattle.doc_view.specs.Seen.{reference_of, seen_as, visible};

use crate::Reference;
use crate::glyph::glyph_of;
use crate::standing::is_row_mark;
use char_formats::CharFormat;
use doc_columns::Attached;
use plain_doc::{Mark, NoteKind};
use symbol_fonts::SymbolFonts;
use view_places::Glyph;

/// [MS-DOC] The unit of a note's own number, at which its text begins.
pub const NOTE_LABEL: u16 = 0x02;

/// Which text of a document is read.
#[derive(Clone, Copy)]
pub enum TextKind {
    Main,
    Note,
    /// A header or a footer.
    Header,
}

impl TextKind {
    fn is_main(self) -> bool
        ensures { result ≡ is_main self }
    {
        match self {
            TextKind::Main => true,
            TextKind::Note | TextKind::Header => false,
        }
    }

    fn is_note(self) -> bool
        ensures { result ≡ is_note self }
    {
        match self {
            TextKind::Note => true,
            TextKind::Main | TextKind::Header => false,
        }
    }

    fn is_header(self) -> bool
        ensures { result ≡ is_header self }
    {
        match self {
            TextKind::Header => true,
            TextKind::Main | TextKind::Note => false,
        }
    }
}

/// How a text is read: whether hidden text is shown, which text it is, and the symbol fonts of its document.
#[derive(Clone, Copy)]
pub struct Manner {
    pub hidden: bool,
    pub kind: TextKind,
    pub fonts: SymbolFonts,
}

/// What the items in front of one come to: whether no field is open whose result has not begun, whether the last one is
/// the label of a note, and how many refer to numbered notes.
#[derive(Clone, Copy)]
pub struct Front {
    pub in_results: bool,
    pub behind_label: bool,
    pub numbered: u32,
}

/// What is seen of an item: whether it is shown, what is visible of it then, the note that it refers to, and its format.
#[derive(Clone, Copy)]
pub struct Seen {
    pub is_shown: bool,
    pub glyph: Option<Glyph>,
    pub reference: Option<Reference>,
    pub format: CharFormat,
}

/// What is seen of a unit of this format, and with this beside it, behind such a front.
pub fn see(
    manner: Manner,
    format: &CharFormat,
    front: Front,
    unit: u16,
    attached: &Attached,
) -> Seen
    requires { front.numbered + 1 < 2 ^ 32 }
    ensures { (chp : Properties) → result ≡ seen_as manner format.now front (item_of unit chp attached.now) }
{
    let number = front.numbered + 1;
    let kind = reference_kind(manner, attached.note);
    let shown = is_shown(manner, format, front, unit, attached);
    let drawn = glyph_of(manner.fonts, format, attached.sect.is_some(), unit);
    let glyph = visible(kind, number, drawn);
    let text = is_text(shown, unit, &attached.mark);
    Seen {
        is_shown: is_seen(manner.kind, glyph, text),
        glyph,
        reference: reference_of(kind, number, shown),
        format: *format,
    }
}

/// Whether text is seen: in a header text it is where something of it is visible.
fn is_seen(kind: TextKind, glyph: Option<Glyph>, is_text: bool) -> bool
    ensures { result ≡ (counts kind glyph && is_text) }
{
    (glyph.is_some() || !kind.is_header()) && is_text
}

/// Whether items of this format, with this beside them, are seen as their units behind such a front, where these are
/// visible as themselves.
pub(crate) fn shows_units(
    manner: Manner,
    format: &CharFormat,
    front: Front,
    attached: &Attached,
) -> bool
    ensures { result ≡ shows_units manner format.now front attached.now }
{
    attached.fld.is_none()
        && reference_kind(manner, attached.note).is_none()
        && front.in_results
        && (manner.hidden || !format.hidden)
        && format.symbol.is_none()
        && !(manner.kind.is_note() && front.behind_label)
}

/// Whether a unit is shown and no mark of a row.
fn is_text(shown: bool, unit: u16, mark: &Option<Mark>) -> bool
    ensures { result ≡ (shown && not (unit == cell_mark && is_byte_one (mark_value_in mark.now 0x2417))) }
{
    shown && !is_row_mark(unit, mark)
}

/// Whether it is shown.
fn is_shown(
    manner: Manner,
    format: &CharFormat,
    front: Front,
    unit: u16,
    attached: &Attached,
) -> bool
    ensures { (chp : Properties) → result ≡ is_shown manner format.now front (item_of unit chp attached.now) }
{
    attached.fld.is_none()
        && front.in_results
        && (manner.hidden || !format.hidden)
        && !(manner.kind.is_note() && is_label(front, unit))
}

/// Whether a unit is the label of a note, or a space or tab behind it.
fn is_label(front: Front, unit: u16) -> bool
    ensures { result ≡ is_label front.behind_label unit }
{
    unit == NOTE_LABEL || ((unit == 0x20 || unit == 0x09) && front.behind_label)
}

/// The kind of the note that is referred to; a note and a header text refer to none.
fn reference_kind(manner: Manner, note: Option<NoteKind>) -> Option<NoteKind>
    ensures { result ≡ reference_kind manner note }
{
    if manner.kind.is_main() { note } else { None }
}

/// What is visible of a reference of this kind and number, or of another unit.
fn visible(kind: Option<NoteKind>, number: u32, glyph: Option<Glyph>) -> Option<Glyph>
    ensures { result ≡ visible kind number glyph }
{
    match kind {
        Some(NoteKind::Auto) => Some(Glyph::NoteMark(number)),
        Some(NoteKind::Custom) => glyph,
        None => glyph,
    }
}

/// The reference to a note of this kind, which would have this number.
fn reference_of(kind: Option<NoteKind>, number: u32, is_shown: bool) -> Option<Reference>
    ensures { result ≡ reference_of kind number is_shown }
{
    match kind {
        Some(NoteKind::Auto) => Some(Reference {
            number: Some(number),
            is_shown,
        }),
        Some(NoteKind::Custom) => Some(Reference {
            number: None,
            is_shown,
        }),
        None => None,
    }
}
