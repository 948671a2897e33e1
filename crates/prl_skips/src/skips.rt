// Codes that are not read are skipped in place: each entry keeps its size and its place.
ghost use Rattle.std.specs.Prelude.{◌≡◌, ◌++◌, ◌+◌, ◌≤◌, false, List, [], MatchOption, IfSome, length, take, drop};
ghost use Rattle.doc_bits.specs.Number.{number_bytes};
ghost use Rattle.sprm_table.specs.Sprm.{Prl, SpellsSprmList, IsAcceptedList};
ghost use Rattle.prl_skips.specs.Skips.{skipped_code, SkipsRefused, SkipsOrStays, PutsSkipped};
ghost use Rattle.prl_skips.specs.Fronts.{HasFirst};

use doc_bits::put16;
use sprm_table::{Class, Code, SprmIter, class, group, list_fault};

/// What one group is in a code.
const GROUP: u16 = 0x0400;

/// The group of pictures, as it is in a code.
const PICTURE: u16 = 0x0C00;

/// The code itself, or with the group of pictures where it is not read.
fn skip_code(code: Code) -> Code
    ensures { result.0 ≡ skipped_code code.0 }
{
    match class(code) {
        Class::Refused => Code(code.0 - u16::from(group(code)) * GROUP + PICTURE),
        _ => code,
    }
}

/// The first code of a list, and where its operand ends.
fn first_code(list: &[u8]) -> Option<(Code, usize)>
    ensures first { (prls : List Prl) → SpellsSprmList list.now prls → MatchOption result
        (prls ≡ [])
        (λ first. HasFirst list.now prls first.0.0 first.1) }
    ensures within { IfSome result (λ first. (2 ≤ first.1) × (first.1 ≤ length list.now)) }
{
    let mut prls = SprmIter::new(list);
    match prls.next() {
        Some((code, _, to)) => Some((code, to)),
        None => None,
    }
}

/// Writes the code at a place anew, with the group of pictures where it is not read: whether it was changed.
fn skip_at(list: &mut [u8], at: usize, code: Code) -> bool
    requires { at + 2 ≤ length list.old }
    ensures put { list.new ≡ take at list.old ++ (number_bytes 2 (skipped_code code.0) ++ drop (at + 2) list.old) }
    ensures same { result ≡ false → skipped_code code.0 ≡ code.0 }
{
    let skipped = skip_code(code);
    put16(list, at, skipped.0);
    skipped != code
}

/// Skips in place the codes of a list that are not read, and tells whether there is one.
pub fn skip_refused(list: &mut [u8]) -> bool
    requires { IsAcceptedList list.old 0 }
    ensures skips { SkipsRefused list.old list.new }
    ensures same { result ≡ false → list.new ≡ list.old }
{
    let mut at = 0;
    let mut any = false;
    while let Some((code, len)) = first_code(&list[at..]) {
        any |= skip_at(list, at, code);
        at += len;
    }
    any
}

/// Skips the codes of a list in place, where it is not cut short.
pub fn skip_list(list: &mut [u8])
    ensures { SkipsOrStays list.old list.new }
{
    if list_fault(list, 0).is_none() {
        let _some = skip_refused(list);
    }
}

/// Skips the codes of the list in a range of bytes, where it is not cut short.
pub fn skip_range(bytes: &mut [u8], from: usize, to: usize)
    requires ordered { from ≤ to }
    requires within { to ≤ length bytes.old }
    ensures { PutsSkipped bytes.old bytes.new from to }
{
    skip_list(&mut bytes[from..to]);
}
