// The bytes of a style sheet that are not read.
ghost use Rattle.std.specs.Prelude.{◌≡◌, ◌^◌, ◌<◌, ◌≤◌, [], ◌∷◌, ◌++◌, nat_lt, OnOk};
ghost use Rattle.std.specs.List.{count_by};
ghost use Rattle.style_sheet.specs.Counted.{even_up as even_offset};
ghost use Rattle.doc_losses.specs.Sheets.{sheet_beyond as bytes_beyond, sheet_features};

use crate::bytes::word_at;
use doc_bits::Memory;
use text_losses::TextFeature;

/// The bytes of the Stshif.
const STSHIF_LEN: u64 = 18;

/// The bytes of an Stdf that are read.
const STDF_LEN: u64 = 10;

/// Appends the bytes of a style sheet that are not read, where there are some.
pub(crate) fn add_sheet(part: &[u8], list: &mut Vec<TextFeature>) -> Result<(), Memory>
    ensures { OnOk result (list.new.items ≡ list.old.items ++ sheet_features part.now) }
{
    let len = sheet_beyond(part);
    if len == 0 {
        return Ok(());
    }
    list.push(TextFeature::SheetBeyond { len })?;
    Ok(())
}

/// How many bytes of a style sheet are not read.
fn sheet_beyond(part: &[u8]) -> u64
    ensures { result ≡ bytes_beyond part.now }
{
    let stshi = word_at(part, 0) as u64;
    let base = word_at(part, 4) as u64;
    let mut place = even_up(2 + word_at(part, 0) as usize);
    let mut styles = 0;
    for _istd in 0..word_at(part, 2) {
        let len = word_at(part, place);
        styles += count_if_filled(len);
        place = even_up(place + 2 + len as usize);
    }
    let behind = part.len().saturating_sub(place) as u64;
    stshi.saturating_sub(STSHIF_LEN) + (base.saturating_sub(STDF_LEN) * styles + behind)
}

/// One where a slot has bytes.
fn count_if_filled(len: u16) -> u64
    ensures count { result ≡ count_by (nat_lt 0) (len ∷ []) }
    ensures few { result ≤ 1 }
{
    if len > 0 { 1 } else { 0 }
}

/// The least even offset from one on.
fn even_up(offset: usize) -> usize
    requires { offset < 2 ^ 63 }
    ensures { result ≡ even_offset offset }
{
    offset + offset % 2
}
