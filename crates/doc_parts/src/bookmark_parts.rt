// [MS-DOC] SttbfBkmk, PlcfBkf and PlcfBkl: the names of bookmarks, where they begin, and where they end.
ghost use Rattle.std.specs.Prelude.{◌≡◌, ℕ, ◌+◌, ◌*◌, ◌<◌, ◌≤◌, ◌^◌, ◌++◌, List, [], ◌∷◌, length, slice_index};
ghost use Rattle.std.specs.Prelude.{IfOk, OnOk, OnErr, MatchResult};
ghost use Rattle.std.specs.List.{filter};
ghost use Rattle.doc_bits.specs.Number.{u16_at, u32_at};
ghost use Rattle.doc_bits.specs.Plc.{IsPlcOf, plc_cp};
ghost use Rattle.doc_bits.specs.Rules.{Hold, LeastOrNone};
ghost use Rattle.doc_parts.specs.Table.{IsPartFault, IsMalformedPart};
ghost use Rattle.doc_parts.specs.Tabulated.{tabulate};
ghost use Rattle.doc_parts.specs.BookmarkParts.{BookmarkParts, parts_at, bookmark_count, start_entry, end_index};
ghost use Rattle.doc_parts.specs.BookmarkParts.{is_kept_bookmark, kept_bookmarks, bookmarks_of, BreaksNames};
ghost use Rattle.doc_parts.specs.BookmarkParts.{BreaksStarts};
ghost use Rattle.doc_parts.specs.BookmarkParts.{AreValidParts, bookmark_rules};

use crate::PartFault;
use doc_bits::{Memory, get16, get32, lesser};
use document_bookmarks::{Bookmark, Bookmarks, Name};
use std::alloc::Global;

pub const RULE_BOOKMARKS: u8 = 57;

/// What the names begin with: their units have 16 bits.
pub(crate) const WIDE: u16 = 0xFFFF;

/// The bytes of `WIDE`, the count and 0.
pub const STTBF_HEAD_LEN: usize = 6;

/// The most units of a name.
const NAME_MAX: usize = 255;

/// Reads SttbfBkmk, PlcfBkf and PlcfBkl, which are at `at` in the table stream, for a main text of
/// `main_len` units. The last CPs are not looked at.
pub fn bookmarks(
    alloc: Global,
    names: &[u8],
    starts: &[u8],
    ends: &[u8],
    at: [u32; 3],
    main_len: u32,
) -> Result<Bookmarks, PartFault>
    requires names { slice_index at 0 + length names.now < 2 ^ 32 }
    requires starts { slice_index at 1 + length starts.now < 2 ^ 32 }
    requires ends { slice_index at 2 + length ends.now < 2 ^ 32 }
    ensures { let parts = parts_at names.now starts.now ends.now at in MatchResult result
        (λ list. Hold (bookmark_rules parts) × (list ≡ bookmarks_of parts main_len))
        (IsPartFault (bookmark_rules parts)) }
{
    if names.len() <= STTBF_HEAD_LEN {
        return Ok(Bookmarks::new(alloc));
    }
    let count = get16(names, 2) as usize;
    let places = lesser(
        starts_fault(starts, at[1], count),
        ends_fault(ends, at[2], count),
    );
    let fault = lesser(names_fault(names, at[0]), places);
    if let Some(offset) = fault {
        return Err(PartFault::Rule {
            rule: RULE_BOOKMARKS,
            offset,
        });
    }
    let kept = keep_bookmarks(alloc, names, starts, ends, main_len)?;
    Ok(Bookmarks::of(kept))
}

/// Where the names break their rule: the part, or the count of a name.
fn names_fault(names: &[u8], at: u32) -> Option<u32>
    requires some { 6 < length names.now }
    requires fits { at + length names.now < 2 ^ 32 }
    ensures { LeastOrNone (BreaksNames names.now at) result }
{
    if get16(names, 0) != WIDE || get16(names, 4) != 0 {
        return Some(at);
    }
    let mut place = STTBF_HEAD_LEN;
    for _k in 0..get16(names, 2) {
        if names.len() < place + 2 {
            return Some(at);
        }
        let units = get16(names, place) as usize;
        if units == 0 || NAME_MAX < units {
            return Some(at + place as u32);
        }
        place += 2 + 2 * units;
        if names.len() < place {
            return Some(at);
        }
    }
    if place == names.len() { None } else { Some(at) }
}

/// Where the starts of so many bookmarks break their rule: the part, or the number of an end.
fn starts_fault(starts: &[u8], at: u32, count: usize) -> Option<u32>
    requires few { count < 2 ^ 16 }
    requires fits { at + length starts.now < 2 ^ 32 }
    ensures { LeastOrNone (BreaksStarts starts.now at count) result }
{
    if starts.len() != 4 + 8 * count {
        return Some(at);
    }
    for k in 0..count {
        let entry = 4 * (count + 1) + 4 * k;
        if count <= get16(starts, entry) as usize {
            return Some(at + entry as u32);
        }
    }
    None
}

/// Where the ends of so many bookmarks break their rule: the part.
fn ends_fault(ends: &[u8], at: u32, count: usize) -> Option<u32>
    requires few { count < 2 ^ 16 }
    ensures { LeastOrNone (IsMalformedPart (IsPlcOf ends.now 0 count) at) result }
{
    if ends.len() == 4 + 4 * count {
        None
    } else {
        Some(at)
    }
}

/// The bookmarks that are kept, in the order of the parts.
fn keep_bookmarks(
    alloc: Global,
    names: &[u8],
    starts: &[u8],
    ends: &[u8],
    main_len: u32,
) -> Result<Vec<Bookmark>, Memory>
    requires some { 6 < length names.now }
    requires right { AreValidParts (parts_at names.now starts.now ends.now []) }
    ensures { IfOk result (λ list. list.items ≡
        kept_bookmarks (parts_at names.now starts.now ends.now []) main_len) }
{
    let count = get16(names, 2) as usize;
    let mut list = Vec::new(alloc);
    let mut place = STTBF_HEAD_LEN;
    for k in 0..count {
        let units = get16(names, place) as usize;
        let name = name_at(alloc, names, place + 2, units)?;
        let range = range_at(starts, ends, count, k);
        push_kept(&mut list, range.named(name), main_len)?;
        place += 2 + 2 * units;
    }
    Ok(list)
}

/// The units of a name.
fn name_at(alloc: Global, names: &[u8], at: usize, count: usize) -> Result<Name, Memory>
    requires { at + 2 * count ≤ length names.now }
    ensures { IfOk result (λ name. name ≡ tabulate (λ i. u16_at names.now (at + 2 * i)) count) }
{
    let mut units = Vec::with_capacity(alloc, count)?;
    for i in 0..count {
        units.push(get16(names, at + 2 * i))?;
    }
    Name::of(units)
}

/// A bookmark without its name.
#[derive(Clone, Copy)]
struct Range {
    from: u32,
    to: u32,
    flags: u16,
}

impl Range {
    /// The bookmark of that name.
    fn named(self, name: Name) -> Bookmark
        ensures { result ≡ record { name = name; from = self.from; to = self.to; flags = self.flags } }
    {
        Bookmark {
            name,
            from: self.from,
            to: self.to,
            flags: self.flags,
        }
    }
}

/// Where a bookmark begins and ends, and its flags.
fn range_at(starts: &[u8], ends: &[u8], count: usize, k: usize) -> Range
    requires below { k < count }
    requires few { count < 2 ^ 16 }
    requires starts { IsPlcOf starts.now 4 count }
    requires index { end_index starts.now count k < count }
    requires ends { IsPlcOf ends.now 0 count }
    ensures { result ≡ record {
      from = plc_cp starts.now k;
      to = plc_cp ends.now (end_index starts.now count k);
      flags = u16_at starts.now (start_entry count k + 2);
    } }
{
    let entry = 4 * (count + 1) + 4 * k;
    let index = get16(starts, entry) as usize;
    Range {
        from: get32(starts, 4 * k),
        to: get32(ends, 4 * index),
        flags: get16(starts, entry + 2),
    }
}

/// Puts a bookmark last, unless it is dropped.
fn push_kept(list: &mut Vec<Bookmark>, bookmark: Bookmark, main_len: u32) -> Result<(), Memory>
    ensures ok { OnOk result (list.new.items ≡ list.old.items ++ filter (is_kept_bookmark main_len) (bookmark ∷ [])) }
{
    if bookmark.from <= bookmark.to && bookmark.to <= main_len {
        list.push(bookmark)?;
    }
    Ok(())
}
