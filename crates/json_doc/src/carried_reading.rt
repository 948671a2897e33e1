// What a document carries along unread, as it is read from its values.
ghost use Rattle.std.specs.Prelude.{◌≡◌, ◌↔◌, ◌^◌, [], ◌∷◌, ℕ, nat_lt, List, ◌≢◌, Ok, length, IsTrue, IfOk};
ghost use Rattle.std.specs.Prelude.{MatchResult, Some, None};
ghost use Rattle.std.specs.List.{slice_get, sum_by};
ghost use Rattle.fib_form.specs.Fib.{kept_flags};
ghost use Rattle.serde_json.specs.Data.{array};
ghost use Rattle.serde_json.specs.View.{view, items_view, members_view};
ghost use Rattle.cfb_streams.specs.Contents.{NamedBytes};
ghost use Rattle.doc_model.specs.Carried.{ArePartsShort, AreListsWithLevels, AreCarriedStreams, IsCarriedName};
ghost use Rattle.doc_model.specs.Formed.{IsFormedCarried};
ghost use Rattle.json_doc.specs.CarriedParts.{carried_json, streams_json};
ghost use Rattle.json_doc.specs.CarriedGroups.{carried_row, behind_front, behind_back, fields_with};
ghost use Rattle.json_doc.specs.CarriedGroups.{IsBackGroup, IsNoBack, IsLast, IsNoLast};
ghost use Rattle.json_doc.specs.CarriedReading.{stream_of_value, stream_of_items, carried_values, AreFormedStreams};
ghost use Rattle.json_doc.specs.CarriedReading.{IsStreamAdded, IsNoStream, AreValidFields, AreValidBut};
ghost use Rattle.json_doc.specs.CarriedReading.{HasCarriedFields};
ghost use Rattle.json_doc.specs.ReadValues.{ReadsValue, Tells};

use cfb_streams::{Streams, TABLE_0, TABLE_1, WORD_DOCUMENT, equal_names};
use doc_bits::{Bytes, Memory, Units};
use doc_parts::levels_len;
use edit_script::{ShapeError, bytes_in};
use json_values::{Row, hex_units_in};
use plain_doc::Carried;
use serde_json::Value;
use std::alloc::Global;

/// A document carries so many streams at most.
const MAX_STREAMS: usize = 1021;

/// The bytes of a CLSID.
const CLSID_LEN: usize = 16;

/// The fields of what is carried, but for the streams.
#[derive(Drop)]
pub struct CarriedFields {
    pub assoc: Bytes,
    pub clsid: Bytes,
    pub dop: Bytes,
    pub flags: u16,
    pub fonts: Bytes,
    pub levels: Bytes,
    pub lfo: Bytes,
    pub lid: u16,
    pub lid_fe: u16,
    pub lst: Bytes,
}

/// What the first five keys of what is carried have.
#[derive(Drop)]
pub struct CarriedFront {
    pub assoc: Bytes,
    pub clsid: Bytes,
    pub dop: Bytes,
    pub flags: u16,
    pub fonts: Bytes,
}

/// What the next five keys have.
#[derive(Drop)]
pub struct CarriedBack {
    pub levels: Bytes,
    pub lfo: Bytes,
    pub lid: u16,
    pub lid_fe: u16,
    pub lst: Bytes,
}

/// What the first five keys have.
fn carried_front_in(alloc: Global, row: &mut Row<'_>) -> Result<CarriedFront, ShapeError>
    ensures { MatchResult result
        (λ front. carried_row (members_view row.old.left) ≡ behind_front front (members_view row.new.left))
        (λ fault. fault ≡ ShapeError.Shape → carried_row (members_view row.old.left) ≡ None) }
{
    let assoc = row.bytes(alloc, "assoc")?;
    let clsid = row.bytes(alloc, "clsid")?;
    let dop = row.bytes(alloc, "dop")?;
    let flags = row.short("flags")?;
    let fonts = row.bytes(alloc, "fonts")?;
    Ok(CarriedFront {
        assoc,
        clsid,
        dop,
        flags,
        fonts,
    })
}

/// What the next five keys have.
fn carried_back_in(alloc: Global, row: &mut Row<'_>) -> Result<CarriedBack, ShapeError>
    ensures { MatchResult result
        (λ back. IsBackGroup (members_view row.old.left) back (members_view row.new.left))
        (λ fault. fault ≡ ShapeError.Shape → IsNoBack (members_view row.old.left)) }
{
    let levels = row.bytes(alloc, "levels")?;
    let lfo = row.bytes(alloc, "lfo")?;
    let lid = row.short("lid")?;
    let lid_fe = row.short("lidfe")?;
    let lst = row.bytes(alloc, "lst")?;
    Ok(CarriedBack {
        levels,
        lfo,
        lid,
        lid_fe,
        lst,
    })
}

/// The value that has the streams: that of the last key.
fn streams_at<'a>(row: &mut Row<'a>) -> Result<&'a Value, ShapeError>
    ensures { MatchResult result
        (λ streams. IsLast (members_view row.old.left) (view streams.now))
        (λ fault. fault ≡ ShapeError.Shape → IsNoLast (members_view row.old.left)) }
{
    let streams = row.need("streams")?;
    row.end()?;
    Ok(streams)
}

/// The fields of both groups.
fn fields_from(front: CarriedFront, back: CarriedBack) -> CarriedFields
    ensures { result ≡ fields_with front back }
{
    CarriedFields {
        assoc: front.assoc,
        clsid: front.clsid,
        dop: front.dop,
        flags: front.flags,
        fonts: front.fonts,
        levels: back.levels,
        lfo: back.lfo,
        lid: back.lid,
        lid_fe: back.lid_fe,
        lst: back.lst,
    }
}

/// The fields of both groups, and the value that has the streams.
fn carried_with<'a>(
    row: &mut Row<'a>,
    front: CarriedFront,
    back: CarriedBack,
) -> Result<(CarriedFields, &'a Value), ShapeError>
    ensures { MatchResult result
        (λ parts. behind_back front back (members_view row.old.left) ≡ Some (parts.0, view parts.1.now))
        (λ fault. fault ≡ ShapeError.Shape → behind_back front back (members_view row.old.left) ≡ None) }
{
    match streams_at(row) {
        Ok(streams) => Ok((fields_from(front, back), streams)),
        Err(fault) => Err(fault),
    }
}

/// The fields of the first group and of those behind it, and the value that has the streams.
fn carried_behind<'a>(
    alloc: Global,
    row: &mut Row<'a>,
    front: CarriedFront,
) -> Result<(CarriedFields, &'a Value), ShapeError>
    ensures { MatchResult result
        (λ parts. behind_front front (members_view row.old.left) ≡ Some (parts.0, view parts.1.now))
        (λ fault. fault ≡ ShapeError.Shape → behind_front front (members_view row.old.left) ≡ None) }
{
    match carried_back_in(alloc, row) {
        Ok(back) => carried_with(row, front, back),
        Err(fault) => Err(fault),
    }
}

/// The fields of what is carried, and the value that has the streams.
fn carried_values_in(alloc: Global, value: &Value) -> Result<(CarriedFields, &Value), ShapeError>
    ensures { MatchResult result
        (λ parts. carried_values (view value.now) ≡ Some (parts.0, view parts.1.now))
        (λ fault. fault ≡ ShapeError.Shape → carried_values (view value.now) ≡ None) }
{
    let mut row = Row::of(value)?;
    let front = carried_front_in(alloc, &mut row)?;
    carried_behind(alloc, &mut row, front)
}

/// A stream: its name and its bytes.
fn stream_in(alloc: Global, value: &Value) -> Result<(Units, Bytes), ShapeError>
    ensures { MatchResult result
        (λ parts. stream_of_value (view value.now) ≡ Some (record { name = parts.0; bytes = parts.1 }))
        (λ fault. fault ≡ ShapeError.Shape → stream_of_value (view value.now) ≡ None) }
{
    match value.as_array() {
        None => Err(ShapeError::Shape),
        Some(values) => stream_from(alloc, values.as_slice()),
    }
}

/// The stream of two values.
fn stream_from(alloc: Global, values: &[Value]) -> Result<(Units, Bytes), ShapeError>
    ensures { MatchResult result
        (λ parts. stream_of_items (items_view values.now) ≡ Some (record { name = parts.0; bytes = parts.1 }))
        (λ fault. fault ≡ ShapeError.Shape → stream_of_items (items_view values.now) ≡ None) }
{
    match values {
        [name, bytes] => {
            let name = hex_units_in(alloc, name)?;
            let bytes = bytes_in(alloc, bytes)?;
            Ok((name, bytes))
        }
        [] | [_] => Err(ShapeError::Shape),
        [_, _, _, ..] => Err(ShapeError::Shape),
    }
}

/// Puts a stream last, where it may be there.
fn add_stream(alloc: Global, streams: &mut Streams, value: &Value) -> Result<(), ShapeError>
    ensures { MatchResult result
        (λ _. IsStreamAdded (view value.now) streams.old streams.new)
        (λ fault. fault ≡ ShapeError.Shape → IsNoStream (view value.now) streams.old) }
{
    let (name, bytes) = stream_in(alloc, value)?;
    if !streams.can_add(name.as_slice(), bytes.as_slice()) {
        return Err(ShapeError::Shape);
    }
    streams.add(name.as_slice(), bytes.as_slice())?;
    Ok(())
}

/// Streams that a document may carry: an array of them.
fn streams_in(alloc: Global, value: &Value) -> Result<Streams, ShapeError>
    ensures { ReadsValue streams_json AreFormedStreams (view value.now) result }
{
    match value.as_array() {
        None => Err(ShapeError::Shape),
        Some(values) => streams_from(alloc, values.as_slice()),
    }
}

/// The streams of an array.
fn streams_from(alloc: Global, values: &[Value]) -> Result<Streams, ShapeError>
    ensures { ReadsValue streams_json AreFormedStreams (array (items_view values.now)) result }
{
    let mut streams = Streams::new(alloc);
    for value in values {
        add_stream(alloc, &mut streams, value)?;
    }
    if !are_carried(&streams) {
        return Err(ShapeError::Shape);
    }
    Ok(streams)
}

/// Whether a document may carry these streams.
fn are_carried(streams: &Streams) -> bool
    ensures { IsTrue result ↔ AreCarriedStreams streams.now }
{
    if streams.count() > MAX_STREAMS {
        return false;
    }
    if total_len(streams) >= 1 << 40 {
        return false;
    }
    have_carried_names(streams)
}

/// How many bytes all streams have.
fn total_len(streams: &Streams) -> u128
    ensures { result ≡ sum_by (λ stream. length stream.bytes) streams.now }
{
    let mut total = 0;
    for i in 0..streams.count() {
        total += streams.bytes(i).len() as u128;
    }
    total
}

/// Whether no stream has a name that a save makes.
fn have_carried_names(streams: &Streams) -> bool
    ensures { IsTrue result
        ↔ ((i : ℕ) (stream : NamedBytes) → slice_get streams.now i ≡ Some stream → IsCarriedName stream.name) }
{
    for i in 0..streams.count() {
        if !is_carried_name(streams.name(i)) {
            return false;
        }
    }
    true
}

/// Whether a name is none that a save makes.
fn is_carried_name(name: &[u16]) -> bool
    ensures { IsTrue result ↔ IsCarriedName name.now }
{
    if equal_names(name, &WORD_DOCUMENT) {
        return false;
    }
    if equal_names(name, &TABLE_0) {
        return false;
    }
    !equal_names(name, &TABLE_1)
}

/// Whether a document may carry these fields, but for the levels of its lists.
fn are_valid_fields(fields: &CarriedFields) -> bool
    ensures { IsTrue result ↔ AreValidBut fields.now }
{
    if fields.clsid.as_slice().len() != CLSID_LEN {
        return false;
    }
    if kept_of(fields.flags) != fields.flags {
        return false;
    }
    are_short(fields)
}

/// Whether each part has fewer than 2^40 bytes.
fn are_short(fields: &CarriedFields) -> bool
    ensures { IsTrue result ↔ ArePartsShort
        (fields.now.fonts ∷ fields.now.dop ∷ fields.now.assoc ∷ fields.now.lst ∷ fields.now.levels
        ∷ fields.now.lfo ∷ []) }
{
    is_short(&fields.fonts)
        && is_short(&fields.dop)
        && is_short(&fields.assoc)
        && is_short(&fields.lst)
        && is_short(&fields.levels)
        && is_short(&fields.lfo)
}

/// Whether a part has fewer than 2^40 bytes.
fn is_short(part: &Bytes) -> bool
    ensures { result ≡ nat_lt (length part.now) (2 ^ 40) }
{
    part.as_slice().len() < 1 << 40
}

/// The flags that are kept, at their places.
fn kept_of(flags: u16) -> u16
    ensures { result ≡ kept_flags flags }
{
    flags % 2 + flags / 0x0400 % 2 * 0x0400 + flags / 0x4000 % 2 * 0x4000
}

/// Whether a part of lists has these levels. Where both have 2^32 bytes or more memory is refused.
fn has_levels(alloc: Global, lst: &[u8], levels: &[u8]) -> Result<bool, Memory>
    ensures { IfOk result (λ has. IsTrue has ↔ AreListsWithLevels lst.now levels.now) }
{
    let mut table = Bytes::from_slice(alloc, lst)?;
    table.push_all(levels)?;
    if table.as_slice().len() >= 1 << 32 {
        return Err(Memory);
    }
    match levels_len(table.as_slice(), 0, lst.len() as u32) {
        None => Ok(false),
        Some(len) => Ok(len as usize == levels.len()),
    }
}

/// The streams of a value, where the fields beside them are right too.
fn streams_attached(
    alloc: Global,
    fields: &CarriedFields,
    value: &Value,
) -> Result<Streams, ShapeError>
    ensures { MatchResult result
        (λ streams. AreValidFields fields.now × ReadsValue streams_json AreFormedStreams (view value.now) (Ok streams))
        (λ fault. fault ≡ ShapeError.Shape → (streams : List NamedBytes) → AreValidFields fields.now
        → AreFormedStreams streams → view value.now ≢ streams_json streams) }
{
    if !are_valid_fields(fields) {
        return Err(ShapeError::Shape);
    }
    if !has_levels(alloc, fields.lst.as_slice(), fields.levels.as_slice())? {
        return Err(ShapeError::Shape);
    }
    match streams_in(alloc, value) {
        Ok(streams) => Ok(streams),
        Err(fault) => Err(fault),
    }
}

/// What a document carries along.
pub(crate) fn carried_in(alloc: Global, value: &Value) -> Result<Carried, ShapeError>
    ensures { Tells carried_json IsFormedCarried (view value.now) result }
{
    let (fields, value) = carried_values_in(alloc, value)?;
    match streams_attached(alloc, &fields, value) {
        Ok(streams) => Ok(carried_from(fields, streams)),
        Err(fault) => Err(fault),
    }
}

/// What is carried, of its fields and its streams.
fn carried_from(fields: CarriedFields, streams: Streams) -> Carried
    requires right { AreValidFields fields }
    requires others { AreCarriedStreams streams }
    ensures { HasCarriedFields fields streams result }
{
    let mut clsid = [0u8; CLSID_LEN];
    clsid.copy_from_slice(fields.clsid.as_slice());
    Carried {
        fonts: fields.fonts,
        dop: fields.dop,
        assoc: fields.assoc,
        lst: fields.lst,
        levels: fields.levels,
        lfo: fields.lfo,
        clsid,
        lid: fields.lid,
        lid_fe: fields.lid_fe,
        flags: fields.flags,
        streams,
    }
}
