// [MS-DOC] PlfLst, LSTF and LVL.
ghost use Rattle.std.specs.Prelude.{◌≡◌, ℕ, ◌+◌, ◌*◌, ◌<◌, ◌≤◌, ◌^◌};
ghost use Rattle.std.specs.Prelude.{◌↔◌, length, IsTrue, MatchOption, MatchResult};
ghost use Rattle.doc_bits.specs.Number.{u16_at};
ghost use Rattle.doc_bits.specs.Rules.{Hold, IsFirstOffset};
ghost use Rattle.doc_parts.specs.Levels.{level_count, level_end, AreLevelsFrom, StopsAtLevel, HasLists, level_rules};
ghost use Rattle.doc_parts.specs.Levels.{HaveLength};

use doc_bits::get16;
use thiserror::Error;

pub const LSTF_LEN: usize = 28;

/// The place in an LSTF of the byte whose bit 0 says that the list is simple.
pub const LSTF_FLAGS: usize = 26;

pub const LVLF_LEN: usize = 28;

/// The place in an LVLF of the length of the character properties.
pub const CB_GRPPRL_CHPX: usize = 24;

/// The place in an LVLF of the length of the paragraph properties.
pub const CB_GRPPRL_PAPX: usize = 25;

/// Rule 56 is broken at this offset of the table stream: at the part, or at the first level that is
/// not whole.
#[derive(Clone, Copy, Debug, Error)]
#[error("rule 56 is broken at {offset} in the table stream")]
pub struct LevelFault {
    pub offset: u32,
}

/// The number of bytes of the levels after PlfLst, which is at `at` with `lcb` bytes.
pub fn list_levels(table: &[u8], at: u32, lcb: u32) -> Result<u32, LevelFault>
    requires within { at + lcb ≤ length table.now }
    requires addressed { length table.now < 2 ^ 32 }
    ensures { MatchResult result
        (λ len. Hold (level_rules table.now at lcb) × HaveLength table.now at lcb len)
        (λ fault. IsFirstOffset (level_rules table.now at lcb) 56 fault.offset) }
{
    let from = (at + lcb) as usize;
    let part = &table[at as usize..from];
    if !has_lists(part) {
        return Err(LevelFault { offset: at });
    }
    match levels_end(table, from, level_count(part)) {
        Ok(end) => Ok((end - from) as u32),
        Err(start) => Err(LevelFault {
            offset: start as u32,
        }),
    }
}

/// The number of bytes of the levels after PlfLst, or nothing where rule 56 is broken.
pub fn levels_len(table: &[u8], at: u32, lcb: u32) -> Option<u32>
    requires within { at + lcb ≤ length table.now }
    requires addressed { length table.now < 2 ^ 32 }
    ensures { MatchOption result
        ((place : ℕ) × IsFirstOffset (level_rules table.now at lcb) 56 place)
        (λ len. Hold (level_rules table.now at lcb) × HaveLength table.now at lcb len) }
{
    match list_levels(table, at, lcb) {
        Ok(len) => Some(len),
        Err(_) => None,
    }
}

/// Whether a part is empty, or has as many LSTFs as its count says.
fn has_lists(part: &[u8]) -> bool
    ensures { IsTrue result ↔ HasLists part.now }
{
    if part.len() < 2 {
        return part.is_empty();
    }
    2 + LSTF_LEN * get16(part, 0) as usize <= part.len()
}

/// The number of levels that the lists of a part have: one for a simple list, else nine.
fn level_count(part: &[u8]) -> u32
    requires { HasLists part.now }
    ensures { result ≡ level_count part.now }
{
    if part.is_empty() {
        return 0;
    }
    let mut count = 0;
    for k in 0..get16(part, 0) as usize {
        let flags = part[2 + LSTF_LEN * k + LSTF_FLAGS];
        count += if flags % 2 == 1 { 1 } else { 9 };
    }
    count
}

/// Where the last of these levels ends, or where the first that leaves the table stream begins.
fn levels_end(table: &[u8], from: usize, count: u32) -> Result<usize, usize>
    requires within { from ≤ length table.now }
    requires addressed { length table.now < 2 ^ 32 }
    ensures { MatchResult result (AreLevelsFrom table.now from count) (StopsAtLevel table.now from count) }
{
    let mut start = from;
    for _k in 0..count {
        match level_end(table, start) {
            Some(end) => start = end,
            None => return Err(start),
        }
    }
    Ok(start)
}

/// Where the level at a place ends, if it is whole.
fn level_end(table: &[u8], start: usize) -> Option<usize>
    requires within { start ≤ length table.now }
    requires addressed { length table.now < 2 ^ 32 }
    ensures { MatchOption result (length table.now < level_end table.now start)
        (λ end. (end ≡ level_end table.now start) × (end ≤ length table.now)) }
{
    if table.len() < start + LVLF_LEN {
        return None;
    }
    let paragraph = table[start + CB_GRPPRL_PAPX] as usize;
    let character = table[start + CB_GRPPRL_CHPX] as usize;
    let text = start + LVLF_LEN + paragraph + character;
    if table.len() < text + 2 {
        return None;
    }
    let end = text + 2 + 2 * get16(table, text) as usize;
    if table.len() < end { None } else { Some(end) }
}
