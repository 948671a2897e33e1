// Texts as pieces, and how they are written, run by run.
ghost use Rattle.std.specs.Prelude.{◌≡◌, ℕ, ◌+◌, ◌-◌, ◌<◌, ◌≤◌, ◌&&◌, length, not, codes, true, false, Some, OnOk};
ghost use Rattle.std.specs.Prelude.{slice_get, option_map};
ghost use Rattle.serde_json.specs.Written.{compact_text};
ghost use Rattle.doc_model.specs.declared.item.Item.{Item};
ghost use Rattle.doc_model.specs.Settings.{same_properties};
ghost use Rattle.doc_columns.specs.Attached.{attached_of, has_something};
ghost use Rattle.doc_columns.specs.Walks.{items_in, AreFullParts, IsColumnWalk};
ghost use Rattle.json_values.specs.Digits.{units_json};
ghost use Rattle.json_values.specs.Out.{Adds};
ghost use Rattle.json_values.specs.Rows.{number_json};
ghost use Rattle.json_values.specs.Settings.{properties_json};
ghost use Rattle.json_doc.specs.Frames.{later_text, piece_with};
ghost use Rattle.json_doc.specs.Pieces.{is_one_piece, mark_json, note_json, piece_json, text_json, texts_json};

use crate::leaves::{write_byte, write_short};
use doc_bits::{Memory, Units};
use doc_columns::{Alike, ColumnTexts, Columns, Parts, Walk, alike_from};
use json_values::{JsonOut, push_comma, write_properties, write_units};
use plain_doc::{Mark, NoteKind, has_same_properties};
use prop_map::PropMap;
use std::alloc::Global;

/// What items beside one another have in common, and their units. One with a mark, a section, a field byte or a note
/// has
/// one unit.
#[derive(Drop)]
pub struct Piece {
    pub chp: PropMap,
    pub fld: Option<u8>,
    pub mark: Option<Mark>,
    pub note: Option<NoteKind>,
    pub units: Units,
    pub sect: Option<PropMap>,
}

/// Writes texts as an array.
pub(crate) fn write_texts(
    alloc: Global,
    out: &mut JsonOut,
    texts: &ColumnTexts,
) -> Result<(), Memory>
    ensures { OnOk result (Adds out.old out.new (compact_text (texts_json texts.now))) }
{
    out.push("[")?;
    for i in 0..texts.len() {
        push_comma(out, i > 0)?;
        write_text(alloc, out, texts.get(i))?;
    }
    out.push("]")
}

/// Writes a text as an array of its pieces. It is linear in the units and the runs.
pub(crate) fn write_text(alloc: Global, out: &mut JsonOut, text: &Columns) -> Result<(), Memory>
    ensures { OnOk result (Adds out.old out.new (compact_text (text_json text.now))) }
{
    write_pieces(alloc, out, &text.parts())
}

/// Writes the pieces of columns as an array.
fn write_pieces(alloc: Global, out: &mut JsonOut, parts: &Parts<'_>) -> Result<(), Memory>
    requires { AreFullParts parts.now }
    ensures { OnOk result (Adds out.old out.new (compact_text (text_json (items_in parts.now)))) }
{
    out.push("[")?;
    let mut walk = Walk::new();
    let mut at = 0;
    while at < parts.units.len() {
        let first = alike_from(parts, &mut walk, at);
        let end = piece_end(parts, &mut walk, &first, at);
        push_comma(out, at > 0)?;
        write_piece(alloc, out, &first, &parts.units[at..end])?;
        at = end;
    }
    out.push("]")
}

/// Where the piece of a place ends, which begins with items that have this in common.
fn piece_end(parts: &Parts<'_>, walk: &mut Walk, first: &Alike<'_>, place: usize) -> usize
    requires parts { AreFullParts parts.now }
    requires walk { IsColumnWalk parts.now walk.old place }
    requires some { place < first.now.end }
    requires within { first.now.end ≤ length parts.now.units.now }
    requires chps { (k : ℕ) (item : Item) → place ≤ k → k < first.now.end
        → slice_get (items_in parts.now) k ≡ Some item → item.chp ≡ first.now.chp.now }
    requires attachments { (k : ℕ) (item : Item) → place ≤ k → k < first.now.end
        → slice_get (items_in parts.now) k ≡ Some item → attached_of item ≡ first.now.attached.now }
    ensures walk { IsColumnWalk parts.now walk.new result }
    ensures some { place < result }
    ensures within { result ≤ length parts.now.units.now }
    ensures joined { (k : ℕ) (item next : Item) → place ≤ k → k + 1 < result
        → slice_get (items_in parts.now) k ≡ Some item → slice_get (items_in parts.now) (k + 1) ≡ Some next
        → is_one_piece item next ≡ true }
    ensures ends { result < length parts.now.units.now → (item next : Item)
        → slice_get (items_in parts.now) (result - 1) ≡ Some item → slice_get (items_in parts.now) result ≡ Some next
        → is_one_piece item next ≡ false }
{
    if first.attached.is_something() {
        return place + 1;
    }
    let mut until = first.end;
    while until < parts.units.len() {
        let next = alike_from(parts, walk, until);
        if !goes_on(first, &next) {
            return until;
        }
        until = next.end;
    }
    until
}

/// Whether a piece goes on with what others have in common.
fn goes_on(first: &Alike<'_>, next: &Alike<'_>) -> bool
    ensures { result ≡ (not (has_something next.now.attached.now) && same_properties first.now.chp.now next.now.chp.now) }
{
    !next.attached.is_something() && has_same_properties(first.chp, next.chp)
}

/// Writes a piece: what its items have in common, and their units.
fn write_piece(
    alloc: Global,
    out: &mut JsonOut,
    first: &Alike<'_>,
    units: &[u16],
) -> Result<(), Memory>
    ensures { OnOk result (Adds out.old out.new
        (compact_text (piece_json (piece_with first.now.chp.now first.now.attached.now units.now)))) }
{
    out.push("{\"c\":")?;
    write_properties(out, first.chp)?;
    write_field(alloc, out, &first.attached.fld)?;
    write_mark(alloc, out, &first.attached.mark)?;
    write_note(out, &first.attached.note)?;
    write_units_of(out, units)?;
    write_section(out, &first.attached.sect)?;
    out.push("}")
}

/// Writes the byte of a field character, where there is one.
#[tactic(auto, unfolding(json::specs::Print::escape_byte))]
fn write_field(alloc: Global, out: &mut JsonOut, fld: &Option<u8>) -> Result<(), Memory>
    ensures { OnOk result (Adds out.old out.new (later_text (codes "f") (option_map number_json fld.now))) }
{
    if let Some(byte) = fld {
        out.push(",\"f\":")?;
        write_byte(alloc, out, *byte)?;
    }
    Ok(())
}

/// Writes a mark, where there is one.
#[tactic(auto, unfolding(json::specs::Print::escape_byte))]
fn write_mark(alloc: Global, out: &mut JsonOut, mark: &Option<Mark>) -> Result<(), Memory>
    ensures { OnOk result (Adds out.old out.new (later_text (codes "m") (option_map mark_json mark.now))) }
{
    if let Some(mark) = mark {
        out.push(",\"m\":{\"p\":")?;
        write_properties(out, &mark.pap)?;
        out.push(",\"s\":")?;
        write_short(alloc, out, mark.istd)?;
        out.push("}")?;
    }
    Ok(())
}

/// Writes how a note is numbered, where there is one.
#[tactic(auto, unfolding(json::specs::Print::escape_byte))]
fn write_note(out: &mut JsonOut, note: &Option<NoteKind>) -> Result<(), Memory>
    ensures { OnOk result (Adds out.old out.new (later_text (codes "n") (option_map note_json note.now))) }
{
    match note {
        None => Ok(()),
        Some(NoteKind::Auto) => out.push(",\"n\":\"auto\""),
        Some(NoteKind::Custom) => out.push(",\"n\":\"custom\""),
    }
}

/// Writes the units of a piece.
#[tactic(auto, unfolding(json::specs::Print::escape_byte))]
fn write_units_of(out: &mut JsonOut, units: &[u16]) -> Result<(), Memory>
    ensures { OnOk result (Adds out.old out.new (later_text (codes "t") (Some (units_json units.now)))) }
{
    out.push(",\"t\":")?;
    write_units(out, units)
}

/// Writes the properties of a section, where there are some.
#[tactic(auto, unfolding(json::specs::Print::escape_byte))]
fn write_section(out: &mut JsonOut, sect: &Option<PropMap>) -> Result<(), Memory>
    ensures { OnOk result (Adds out.old out.new (later_text (codes "x") (option_map properties_json sect.now))) }
{
    if let Some(map) = sect {
        out.push(",\"x\":")?;
        write_properties(out, map)?;
    }
    Ok(())
}
