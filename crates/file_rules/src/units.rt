// The text by CP. Whoever checks a unit reads a plain slice, and goes over the places row by row.
ghost use Rattle.std.specs.Prelude.{◌≡◌, ◌+◌, ◌*◌, ◌^◌, ◌<◌, ◌≤◌, ◌++◌, length, map, take, All, IfOk};
ghost use Rattle.std.specs.List.{range_with_len};
ghost use Rattle.piece_table.specs.Piece.{IsPiece, bare_piece, piece_end, total_length, unit_bytes, places_of_piece};
ghost use Rattle.direct_props.specs.Rows.{row_places_of, row_places};
ghost use Rattle.file_rules.specs.TextRows.{AreTextRows};
ghost use Rattle.file_rules.specs.Units.{unit_at, text_of_pieces, unmodified_piece, text_units, unit_places_in};
ghost use Rattle.file_rules.specs.Units.{wide_unit};

use crate::narrow::put_narrow;
use direct_props::{PlaceRow, Places};
use doc_bits::{Memory, get16};
use piece_table::{Piece, PieceList};
use std::alloc::Global;
use std::marker::Model;

/// The unit of each CP, and the place of its first byte in `WordDocument`. The places of a piece are one row.
#[derive(Drop)]
pub struct TextUnits {
    rows: Vec<PlaceRow>,
    units: Vec<u16>,
}

impl Model for TextUnits {
    ghost use Rattle.direct_props.specs.Rows.{row_places_of};
    ghost use Rattle.file_rules.specs.TextRows.{AreTextRows};
    ghost use Rattle.file_rules.specs.Units.{UnitText};

    ghost Value = { UnitText };

    ghost view = { λ t. record { places = row_places_of t.rows.items; units = t.units.items } };

    ghost invariant = { λ t. AreTextRows t.rows.items };
}

impl TextUnits {
    /// The place of the first byte of each unit, by CP.
    pub fn places(&self) -> Places<'_>
        ensures { result ≡ self.now.places }
    {
        Places::of(&self.rows)
    }

    /// The units, by CP.
    pub fn units(&self) -> &[u16]
        ensures { result.now ≡ self.now.units }
    {
        &self.units
    }

    /// The units themselves, of which none is copied.
    pub fn into_units(self) -> Vec<u16>
        ensures { result.items ≡ self.units }
    {
        self.units
    }
}

/// Reads the units of all pieces, one after the other.
pub fn read_units(alloc: Global, wd: &[u8], pieces: &PieceList) -> Result<TextUnits, Memory>
    requires { All (λ piece. piece_end (bare_piece piece) ≤ length wd.now) pieces.now.pieces }
    ensures { IfOk result (λ text. text ≡ text_of_pieces wd.now pieces.now.pieces) }
{
    let rows = place_rows(alloc, pieces)?;
    let mut units = vec![in alloc; 0; pieces.total() as usize]?;
    put_all(&mut units, wd, pieces);
    Ok(TextUnits { rows, units })
}

/// The places of the units of all pieces, a row a piece.
fn place_rows(alloc: Global, pieces: &PieceList) -> Result<Vec<PlaceRow>, Memory>
    ensures places { IfOk result (λ rows. row_places_of rows.items ≡ unit_places_in pieces.now.pieces) }
    ensures rows { IfOk result (λ rows. AreTextRows rows.items) }
{
    let mut rows = Vec::with_capacity(alloc, pieces.len())?;
    for i in 0..pieces.len() {
        rows.push(row_of(pieces.piece(i)))?;
    }
    Ok(rows)
}

/// The row of the places of a piece's units.
fn row_of(piece: Piece) -> PlaceRow
    requires { IsPiece piece }
    ensures places { row_places result ≡ map (λ place. place.at) (places_of_piece (unmodified_piece piece)) }
    ensures row { result.at + result.len * result.step < 2 ^ 32 }
{
    PlaceRow {
        at: piece.at,
        step: unit_len(piece.wide),
        len: piece.len,
    }
}

/// The number of bytes of a unit.
fn unit_len(wide: bool) -> u32
    ensures { result ≡ unit_bytes wide }
{
    if wide { 2 } else { 1 }
}

/// Puts the units of all pieces.
fn put_all(units: &mut [u16], wd: &[u8], pieces: &PieceList)
    requires within { All (λ piece. piece_end (bare_piece piece) ≤ length wd.now) pieces.now.pieces }
    requires units { length units.old ≡ total_length pieces.now.pieces }
    ensures { units.new ≡ text_units wd.now pieces.now.pieces }
{
    let mut cp = 0;
    for i in 0..pieces.len() {
        let piece = pieces.piece(i);
        put_units(units, cp, wd, piece);
        cp += piece.len as usize;
    }
}

/// Puts the units of a piece at a CP.
fn put_units(units: &mut [u16], cp: usize, wd: &[u8], piece: Piece)
    requires end { piece_end piece ≤ length wd.now }
    requires room { cp + piece.len ≤ length units.old }
    ensures len { length units.new ≡ length units.old }
    ensures put { take (cp + piece.len) units.new
        ≡ take cp units.old ++ map (unit_at wd.now) (places_of_piece (unmodified_piece piece)) }
{
    let at = piece.at as usize;
    if piece.wide {
        put_wide(units, cp, wd, at, piece.len as usize)
    } else {
        put_narrow(units, cp, wd, at, piece.len as usize)
    }
}

/// Puts `len` units of two bytes that are from `at` on.
fn put_wide(units: &mut [u16], cp: usize, wd: &[u8], at: usize, len: usize)
    requires end { at + 2 * len ≤ length wd.now }
    requires room { cp + len ≤ length units.old }
    ensures len { length units.new ≡ length units.old }
    ensures put { take (cp + len) units.new
        ≡ take cp units.old ++ map (wide_unit wd.now at) (range_with_len 0 len) }
{
    for j in 0..len {
        units[cp + j] = get16(wd, at + 2 * j);
    }
}
