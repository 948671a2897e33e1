// Texts as they are read from the values of their pieces.
ghost use Rattle.std.specs.Prelude.{◌≡◌, ◌++◌, ◌+◌, ◌↔◌, ◌<◌, ◌≤◌, ◌^◌, length, IsTrue, IfOk, Some};
ghost use Rattle.std.specs.Prelude.{MatchResult, ℕ, true};
ghost use Rattle.std.specs.Option.{ForSome};
ghost use Rattle.serde_json.specs.Data.{array};
ghost use Rattle.serde_json.specs.View.{view, items_view, members_view};
ghost use Rattle.edit_script.specs.Json.{GivesReading};
ghost use Rattle.prop_map.specs.Formed.{IsPropertyMap, paragraph_groups, section_groups};
ghost use Rattle.doc_model.specs.Document.{IsFormedText, AreFormedTexts};
ghost use Rattle.doc_model.specs.Stretches.{goes_over};
ghost use Rattle.json_values.specs.Digits.{AreUnits};
ghost use Rattle.json_values.specs.Rows.{Steps, may};
ghost use Rattle.json_doc.specs.Pieces.{is_one_piece, piece_json, text_json, texts_json};
ghost use Rattle.json_doc.specs.PieceReading.{mark_of, note_with_name, note_kind_of, piece_of, piece_items};
ghost use Rattle.json_doc.specs.PieceReading.{is_special_piece};
ghost use Rattle.json_doc.specs.PieceReading.{item_with, IsValidPiece, IsFormedPiece, HasPieceNumbers, IsPieceAdded};
ghost use Rattle.json_doc.specs.PieceReading.{IsNoPiece, MayFollow, EndsByPiece, are_joined, joins_last_piece};
ghost use Rattle.json_doc.specs.ReadValues.{ReadsValue};

use crate::pieces::Piece;
use doc_bits::Memory;
use doc_columns::{ColumnTexts, Columns};
use edit_script::{ShapeError, properties_in, short_in};
use json_values::Row;
use plain_doc::{
    Item, Mark, NoteKind, copy_mark, copy_section, has_field_byte, has_same_properties,
    has_style_number,
};
use prop_map::{CHARACTER_GROUPS, PARAGRAPH_GROUPS, PropMap, SECTION_GROUPS};
use serde_json::Value;
use std::alloc::Global;

/// A mark: its properties and its style number.
fn mark_in(alloc: Global, value: &Value) -> Result<Mark, ShapeError>
    ensures { GivesReading result (mark_of (view value.now)) }
{
    let mut row = Row::of(value)?;
    let pap = row.properties(alloc, "p")?;
    let istd = row.short("s")?;
    row.end()?;
    Ok(Mark { istd, pap })
}

/// The mark at a key, where it comes first.
fn mark_if(alloc: Global, row: &mut Row<'_>, key: &str) -> Result<Option<Mark>, ShapeError>
    ensures { Steps (may key.now mark_of) (members_view row.old.left) result (members_view row.new.left) }
{
    match row.may(key) {
        None => Ok(None),
        Some(value) => Ok(Some(mark_in(alloc, value)?)),
    }
}

/// How a note is numbered, by its name.
fn note_named(word: &str) -> Option<NoteKind>
    ensures { result ≡ note_with_name word.now }
{
    match word {
        "auto" => Some(NoteKind::Auto),
        "custom" => Some(NoteKind::Custom),
        _ => None,
    }
}

/// How a note is numbered.
fn note_in(value: &Value) -> Result<NoteKind, ShapeError>
    ensures { GivesReading result (note_kind_of (view value.now)) }
{
    match value.as_str().and_then(note_named) {
        None => Err(ShapeError::Shape),
        Some(note) => Ok(note),
    }
}

/// How the note at a key is numbered, where the key comes first.
fn note_if(row: &mut Row<'_>, key: &str) -> Result<Option<NoteKind>, ShapeError>
    ensures { Steps (may key.now note_kind_of) (members_view row.old.left) result (members_view row.new.left) }
{
    match row.may(key) {
        None => Ok(None),
        Some(value) => Ok(Some(note_in(value)?)),
    }
}

/// A piece, as its object has it.
fn piece_in(alloc: Global, value: &Value) -> Result<Piece, ShapeError>
    ensures { GivesReading result (piece_of (view value.now)) }
{
    let mut row = Row::of(value)?;
    let chp = row.properties(alloc, "c")?;
    let fld = row.byte_if("f")?;
    let mark = mark_if(alloc, &mut row, "m")?;
    let note = note_if(&mut row, "n")?;
    let units = row.units(alloc, "t")?;
    let sect = row.properties_if(alloc, "x")?;
    row.end()?;
    Ok(Piece {
        chp,
        fld,
        mark,
        note,
        units,
        sect,
    })
}

/// Whether the maps of a piece may be at their places, and it has as many units as it may.
fn is_valid(piece: &Piece) -> bool
    ensures { IsTrue result ↔ IsValidPiece piece.now }
{
    if !piece.chp.is_held(CHARACTER_GROUPS) {
        return false;
    }
    if !has_valid_mark(&piece.mark) {
        return false;
    }
    if !has_valid_section(&piece.sect) {
        return false;
    }
    has_valid_len(piece)
}

/// Whether the properties of a mark may be there.
fn has_valid_mark(mark: &Option<Mark>) -> bool
    ensures { IsTrue result ↔ ForSome mark.now (λ mark. IsPropertyMap paragraph_groups mark.pap) }
{
    match mark {
        None => true,
        Some(mark) => mark.pap.is_held(PARAGRAPH_GROUPS),
    }
}

/// Whether the properties of a section may be there.
fn has_valid_section(sect: &Option<PropMap>) -> bool
    ensures { IsTrue result ↔ ForSome sect.now (IsPropertyMap section_groups) }
{
    match sect {
        None => true,
        Some(map) => map.is_held(SECTION_GROUPS),
    }
}

/// Whether a piece has a unit, and one alone where it is special.
fn has_valid_len(piece: &Piece) -> bool
    ensures { IsTrue result
        ↔ (1 ≤ length piece.now.units) × (is_special_piece piece.now ≡ true → length piece.now.units ≤ 1) }
{
    let len = piece.units.as_slice().len();
    len == 1 || (len > 1 && !is_special(piece))
}

/// Whether a piece has something beside its properties.
fn is_special(piece: &Piece) -> bool
    ensures { result ≡ is_special_piece piece.now }
{
    piece.mark.is_some() || (piece.sect.is_some() || (piece.fld.is_some() || piece.note.is_some()))
}

/// The numbers of a piece have the bits of their types.
fn has_numbers(piece: &Piece)
    ensures { HasPieceNumbers piece.now }
{
    are_units(piece.units.as_slice());
    has_style_number(&piece.mark);
    has_field_byte(&piece.fld);
}

/// Units have 16 bits.
fn are_units(units: &[u16])
    ensures { AreUnits units.now }
{}

/// A number of 16 bits is below 2^16.
fn is_word(number: u16)
    ensures { number < 2 ^ 16 }
{}

/// A byte is below 256.
fn is_byte(number: u8)
    ensures { number < 2 ^ 8 }
{}

/// A piece whose maps and units are right.
fn right_piece_in(alloc: Global, value: &Value) -> Result<Piece, ShapeError>
    ensures pieces { ReadsValue piece_json IsFormedPiece (view value.now) result }
    ensures read { IfOk result (λ piece. piece_of (view value.now) ≡ Some piece) }
{
    let piece = piece_in(alloc, value)?;
    has_numbers(&piece);
    if !is_valid(&piece) {
        return Err(ShapeError::Shape);
    }
    Ok(piece)
}

/// Whether the items of a piece join those of the next one.
fn are_joined(piece: &Piece, next: &Piece) -> bool
    ensures { result ≡ are_joined piece.now next.now }
{
    !is_special(piece) && !is_special(next) && has_same_properties(&piece.chp, &next.chp)
}

/// A text that grows by pieces, and the last of these.
#[derive(Drop)]
struct GrowingText {
    text: Columns,
    last: Option<Piece>,
}

/// Whether the last piece goes on in the next one.
fn goes_on(last: &Option<Piece>, next: &Piece) -> bool
    ensures { result ≡ joins_last_piece last.now next.now }
{
    match last {
        None => false,
        Some(last) => are_joined(last, next),
    }
}

/// Whether a text has room for the units of a piece.
fn has_room(text: &Columns, piece: &Piece) -> bool
    ensures { IsTrue result ↔ length text.now + length piece.now.units < 2 ^ 32 }
{
    text.len() as u64 + (piece.units.as_slice().len() as u64) < 1 << 32
}

/// Whether a text does not go on in a piece, and has room for it.
fn may_follow(text: &GrowingText, piece: &Piece) -> bool
    requires ends { EndsByPiece text.now.text text.now.last }
    requires some { 1 ≤ length piece.now.units }
    ensures { IsTrue result ↔ MayFollow text.now.text piece.now }
{
    if goes_on(&text.last, piece) {
        return false;
    }
    has_room(&text.text, piece)
}

/// The item of a unit of a piece. Its maps are shared.
fn item_of(alloc: Global, piece: &Piece, unit: u16) -> Result<Item, Memory>
    ensures { IfOk result (λ item. item ≡ item_with piece.now unit) }
{
    Ok(Item {
        unit,
        fld: piece.fld,
        note: piece.note,
        chp: piece.chp.copy(alloc)?,
        mark: copy_mark(alloc, &piece.mark)?,
        sect: copy_section(alloc, &piece.sect)?,
    })
}

/// The text with the items of a piece behind it. They are one run, and their maps are shared.
fn with_piece(alloc: Global, text: Columns, piece: &Piece) -> Result<Columns, Memory>
    requires room { length text + length piece.now.units < 2 ^ 32 }
    requires formed { IsFormedPiece piece.now }
    ensures { IfOk result (λ made. made ≡ text ++ piece_items piece.now) }
{
    let units = piece.units.as_slice();
    if is_special(piece) {
        let made = text.add(item_of(alloc, piece, units[0])?)?;
        return Ok(made);
    }
    let made = text.add_units(units, piece.chp.copy(alloc)?)?;
    Ok(made)
}

/// Puts a piece behind a text that does not go on in it and has room.
fn put_piece(alloc: Global, text: GrowingText, piece: Piece) -> Result<GrowingText, Memory>
    requires room { length text.text + length piece.units < 2 ^ 32 }
    requires formed { IsFormedPiece piece }
    ensures put { IfOk result (λ made. made.text ≡ text.text ++ piece_items piece) }
    ensures ends { IfOk result (λ made. EndsByPiece made.text made.last) }
{
    let GrowingText { text, last: _ } = text;
    let text = with_piece(alloc, text, &piece)?;
    Ok(GrowingText {
        text,
        last: Some(piece),
    })
}

/// Puts the items of a value's piece behind a text, which does not go on in it.
fn add_piece(alloc: Global, text: GrowingText, value: &Value) -> Result<GrowingText, ShapeError>
    requires { EndsByPiece text.text text.last }
    ensures { MatchResult result
        (λ made. IsPieceAdded (view value.now) text.text made.text × EndsByPiece made.text made.last)
        (λ fault. fault ≡ ShapeError.Shape → IsNoPiece (view value.now) text.text) }
{
    let piece = right_piece_in(alloc, value)?;
    if !may_follow(&text, &piece) {
        return Err(ShapeError::Shape);
    }
    let made = put_piece(alloc, text, piece)?;
    Ok(made)
}

/// A text: an array of pieces, of which none goes on in the next one.
pub(crate) fn text_in(alloc: Global, value: &Value) -> Result<Columns, ShapeError>
    ensures { ReadsValue text_json IsFormedText (view value.now) result }
{
    match value.as_array() {
        None => Err(ShapeError::Shape),
        Some(values) => items_in(alloc, values.as_slice()),
    }
}

/// The items of the pieces of an array.
fn items_in(alloc: Global, values: &[Value]) -> Result<Columns, ShapeError>
    ensures { ReadsValue text_json IsFormedText (array (items_view values.now)) result }
{
    let mut grown = GrowingText {
        text: Columns::new(alloc),
        last: None,
    };
    for value in values {
        grown = add_piece(alloc, grown, value)?;
    }
    let _len = grown.text.len();
    Ok(grown.text)
}

/// Texts: an array of them.
pub(crate) fn texts_in(alloc: Global, value: &Value) -> Result<ColumnTexts, ShapeError>
    ensures { ReadsValue texts_json AreFormedTexts (view value.now) result }
{
    match value.as_array() {
        None => Err(ShapeError::Shape),
        Some(values) => all_texts(alloc, values.as_slice()),
    }
}

/// The texts of an array.
fn all_texts(alloc: Global, values: &[Value]) -> Result<ColumnTexts, ShapeError>
    ensures { ReadsValue texts_json AreFormedTexts (array (items_view values.now)) result }
{
    let mut texts = ColumnTexts::new(alloc);
    if values.len() >= 1 << 32 {
        return Err(ShapeError::Shape);
    }
    for value in values {
        texts.add(text_in(alloc, value)?)?;
    }
    Ok(texts)
}
