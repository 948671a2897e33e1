// Bookmarks that do not fit the main text.
ghost use Rattle.std.specs.Prelude.{◌≡◌, ◌+◌, ◌*◌, ◌^◌, ◌<◌, ◌++◌, [], ◌∷◌, IfOk, OnOk};
ghost use Rattle.doc_bits.specs.Number.{u16_at};
ghost use Rattle.doc_bits.specs.Plc.{plc_cp};
ghost use Rattle.doc_parts.specs.BookmarkParts.{parts_at, bookmark_at, bookmark_count, end_index};
ghost use Rattle.doc_parts.specs.BookmarkParts.{bookmark_name_place};
ghost use Rattle.doc_parts.specs.Tabulated.{tabulate};
ghost use Rattle.doc_losses.specs.Bookmarks.{bookmark_feature, bookmark_features};
ghost use Rattle.doc_losses.specs.Losses.{lost_features};

use crate::bytes::{long_at, word_at};
use doc_bits::{Memory, Units};
use doc_parts::STTBF_HEAD_LEN;
use std::alloc::Global;
use text_losses::TextFeature;

/// SttbfBkmk, PlcfBkf and PlcfBkl.
#[derive(Clone, Copy)]
pub(crate) struct BookmarkBytes<'a> {
    pub(crate) names: &'a [u8],
    pub(crate) starts: &'a [u8],
    pub(crate) ends: &'a [u8],
}

/// Appends the bookmarks that do not fit a main text of `main_len` units.
pub(crate) fn add_bookmarks(
    alloc: Global,
    parts: BookmarkBytes<'_>,
    main_len: u32,
    list: &mut Vec<TextFeature>,
) -> Result<(), Memory>
    ensures { OnOk result (list.new.items ≡ list.old.items ++ lost_features main_len
        (bookmark_features (parts_at parts.entry.names.now parts.entry.starts.now parts.entry.ends.now []))) }
{
    if parts.names.len() <= STTBF_HEAD_LEN {
        return Ok(());
    }
    let count = word_at(parts.names, 2) as usize;
    let mut place = STTBF_HEAD_LEN;
    for k in 0..count {
        add_bookmark(alloc, parts, k, place, main_len, list)?;
        place += 2 + 2 * word_at(parts.names, place) as usize;
    }
    Ok(())
}

/// Appends a bookmark, where it does not fit. Its name is at a place.
fn add_bookmark(
    alloc: Global,
    parts: BookmarkBytes<'_>,
    k: usize,
    place: usize,
    main_len: u32,
    list: &mut Vec<TextFeature>,
) -> Result<(), Memory>
    requires few { k < 2 ^ 16 }
    requires place { place ≡ bookmark_name_place parts.names.now k }
    requires low { place < 2 ^ 40 }
    ensures { OnOk result (list.new.items ≡ list.old.items ++ lost_features main_len
        (bookmark_feature (bookmark_at (parts_at parts.entry.names.now parts.entry.starts.now parts.entry.ends.now []) k) ∷ [])) }
{
    let from = long_at(parts.starts, 4 * k);
    let to = end_of(parts, k);
    if from <= to && to <= main_len {
        return Ok(());
    }
    let name = name_at(alloc, parts.names, place)?;
    list.push(TextFeature::Bookmark { name, from, to })?;
    Ok(())
}

/// Where a bookmark ends.
fn end_of(parts: BookmarkBytes<'_>, k: usize) -> u32
    requires { k < 2 ^ 16 }
    ensures { result ≡ plc_cp parts.entry.ends.now (end_index parts.entry.starts.now
        (bookmark_count parts.entry.names.now) k) }
{
    let count = word_at(parts.names, 2) as usize;
    let index = word_at(parts.starts, 4 * (count + 1) + 4 * k) as usize;
    long_at(parts.ends, 4 * index)
}

/// The units of the name at a place.
fn name_at(alloc: Global, names: &[u8], place: usize) -> Result<Units, Memory>
    requires { place < 2 ^ 40 }
    ensures { IfOk result (λ name. name ≡
        tabulate (λ i. u16_at names.now (place + 2 + 2 * i)) (u16_at names.now place)) }
{
    let mut name = Units::new(alloc);
    for i in 0..word_at(names, place) as usize {
        name.push_all(&[word_at(names, place + 2 + 2 * i)])?;
    }
    Ok(name)
}
