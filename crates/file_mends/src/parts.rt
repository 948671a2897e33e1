// Which part the rule is on that a file breaks.
ghost use Rattle.std.specs.Prelude.{◌≡◌, ◌↔◌, ◌+◌, ◌*◌, ◌<◌, ◌≤◌, IsTrue, ℕ, IfSome, MatchOption, length};
ghost use Rattle.file_mends.specs.Parts.{IsFieldPart, IsPartOfRule, StandsIn, emptied_pairs};

use doc_bits::get32;
use doc_parts::{RULE_BOOKMARKS, RULE_FIELDS};
use fib_form::RG_FC_LCB;
use file_rules::{RULE_HEADS, RULE_LISTS};

/// [MS-DOC] FibRgFcLcb97: the numbers of pairs.
pub const PLCF_HDD: usize = 11;

const PLCF_FLD_MOM: usize = 16;

pub const PLCF_FLD_HDR: usize = 17;

pub const PLCF_FLD_FTN: usize = 18;

pub const STTBF_BKMK: usize = 21;

const PLF_LST: usize = 73;

/// The number of the pair of the part whose own rule is broken at an offset of the table stream.
pub(crate) fn part_of_rule(wd: &[u8], rule: u8, offset: u32) -> Option<usize>
    requires { 4096 ≤ length wd.now }
    ensures part { MatchOption result
        ((n : ℕ) → ¬ IsPartOfRule wd.now rule offset n) (IsPartOfRule wd.now rule offset) }
    ensures below { IfSome result (λ n. n < 93) }
{
    if rule == RULE_FIELDS {
        return field_part(wd, offset);
    }
    if rule == RULE_HEADS {
        return Some(PLCF_HDD);
    }
    if rule == RULE_LISTS {
        return Some(PLF_LST);
    }
    if rule == RULE_BOOKMARKS {
        return Some(STTBF_BKMK);
    }
    None
}

/// The first table of fields in which an offset of the table stream is.
fn field_part(wd: &[u8], offset: u32) -> Option<usize>
    requires { 4096 ≤ length wd.now }
    ensures part { MatchOption result ((n : ℕ) → ¬ IsFieldPart wd.now offset n) (IsFieldPart wd.now offset) }
    ensures below { IfSome result (λ n. n < 93) }
{
    if stands_in(wd, PLCF_FLD_MOM, offset) {
        return Some(PLCF_FLD_MOM);
    }
    if stands_in(wd, PLCF_FLD_FTN, offset) {
        return Some(PLCF_FLD_FTN);
    }
    if stands_in(wd, PLCF_FLD_HDR, offset) {
        return Some(PLCF_FLD_HDR);
    }
    None
}

/// Whether an offset of the table stream is one of the part of pair `n`.
fn stands_in(wd: &[u8], n: usize, offset: u32) -> bool
    requires long { 4096 ≤ length wd.now }
    requires below { n < 93 }
    ensures { IsTrue result ↔ StandsIn wd.now n offset }
{
    let at = pair_offset(n);
    let fc = get32(wd, at) as u64;
    let lcb = get32(wd, at + 4) as u64;
    fc <= offset as u64 && (offset as u64) < fc + lcb
}

/// Where pair `n` is in `WordDocument`.
pub(crate) fn pair_offset(n: usize) -> usize
    requires { n < 93 }
    ensures { result ≡ 154 + 8 * n }
{
    RG_FC_LCB + 8 * n
}

/// How many pairs are emptied from pair `n` on.
pub(crate) fn pair_count(n: usize) -> usize
    ensures count { result ≡ emptied_pairs n }
    ensures few { result ≤ 3 }
{
    match n {
        STTBF_BKMK => 3,
        PLF_LST => 2,
        _ => 1,
    }
}
