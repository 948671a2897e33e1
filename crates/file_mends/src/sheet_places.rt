// Where the style sheet of a file is.
ghost use Rattle.std.specs.Prelude.{◌≡◌, ◌<◌, ◌≤◌, ◌^◌, MatchOption, Some, length, slice_get};
ghost use Rattle.cfb_streams.specs.Contents.{Stream};
ghost use Rattle.file_mends.specs.SheetPlaces.{IsSheetAmong, IsSheetBy, IsSheetIn, IsSheetOf};
ghost use Rattle.file_mends.specs.SheetPlaces.{SheetPlace as Sheet};

use crate::file_streams::{STSHF, part_begin, part_bytes, used_table};
use cfb_streams::{Container, equal_names, word_document};
use fib_form::EARLY_SIZE;
use std::marker::Model;

/// Where the style sheet begins in the table stream, its bytes, and the sectors of the table stream.
#[derive(Drop)]
pub(crate) struct SheetPlace<'a> {
    pub(crate) at: usize,
    pub(crate) part: &'a [u8],
    pub(crate) sectors: &'a [u32],
}

impl<'a> Model for SheetPlace<'a> {
    ghost use Rattle.std.specs.Prelude.{◌<◌, ◌^◌, length};
    ghost use Rattle.file_mends.specs.SheetPlaces.{SheetPlace};

    ghost Value = { SheetPlace };

    ghost view = { λ s. record { at = s.at; part = s.part.now; sectors = s.sectors.now } };

    ghost invariant = { λ s. (s.at < 2 ^ 32) × (length s.part.now < 2 ^ 32) };
}

/// The style sheet of a file, by its streams.
pub(crate) fn sheet_among(container: &Container) -> Option<SheetPlace<'_>>
    ensures { MatchOption result
        ((sheet : Sheet) → ¬ IsSheetAmong container.now sheet)
        (IsSheetAmong container.now) }
{
    for i in 0..container.count() {
        if let Some(sheet) = sheet_by(container, i) {
            return Some(sheet);
        }
    }
    None
}

/// The style sheet of a file that one of its streams leads to, where it is `WordDocument`.
fn sheet_by(container: &Container, i: usize) -> Option<SheetPlace<'_>>
    requires { i < length container.now.streams }
    ensures { MatchOption result
        ((stream : Stream) (sheet : Sheet) → slice_get container.now.streams i ≡ Some stream
        → ¬ IsSheetBy container.now stream sheet)
        (IsSheetAmong container.now) }
{
    if !equal_names(container.name(i), word_document()) {
        return None;
    }
    let wd = container.bytes(i);
    if wd.len() < EARLY_SIZE {
        return None;
    }
    sheet_for(container, wd)
}

/// The style sheet of a `WordDocument`.
fn sheet_for<'a>(container: &'a Container, wd: &[u8]) -> Option<SheetPlace<'a>>
    requires { 900 ≤ length wd.now }
    ensures { MatchOption result
        ((sheet : Sheet) → ¬ IsSheetIn container.now wd.now sheet)
        (IsSheetIn container.now wd.now) }
{
    for i in 0..container.count() {
        if let Some(sheet) = sheet_in(container, i, wd) {
            return Some(sheet);
        }
    }
    None
}

/// The style sheet in one of the streams, where it is the table stream.
fn sheet_in<'a>(container: &'a Container, i: usize, wd: &[u8]) -> Option<SheetPlace<'a>>
    requires within { i < length container.now.streams }
    requires long { 900 ≤ length wd.now }
    ensures { MatchOption result
        ((stream : Stream) (sheet : Sheet) → slice_get container.now.streams i ≡ Some stream
        → ¬ IsSheetOf stream wd.now sheet)
        (IsSheetIn container.now wd.now) }
{
    if !equal_names(container.name(i), used_table(wd)) {
        return None;
    }
    let Some(sectors) = container.chain(i) else {
        return None;
    };
    Some(SheetPlace {
        at: part_begin(wd, STSHF),
        part: part_bytes(wd, container.bytes(i), STSHF),
        sectors,
    })
}
