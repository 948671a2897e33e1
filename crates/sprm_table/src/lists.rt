// Lists are ranges of the bytes that they are in. Nothing is copied, and no call takes memory.
ghost use Rattle.std.specs.Prelude.{◌≡◌, ◌↔◌, List, [], MatchOption};
ghost use Rattle.doc_bits.specs.Rules.{Nowhere};
ghost use Rattle.sprm_table.specs.Sprm.{Prl, SpellsSprmList, HasSprmFaultAt};
ghost use Rattle.sprm_table.specs.Sprm.{IsAcceptedList, IsFirstSprmFault};
ghost use Rattle.sprm_table.specs.Cursor.{left, GivesNothing, GivesPrl, TakesFirstPrl};
ghost use Rattle.sprm_table.specs.Front.{IsStep};

use crate::{Code, SprmFault, is_refused, operand};
use doc_bits::get16;
use std::marker::Model;

/// The first fault of a list at a place that holds these groups: an operand that leaves the list,
/// whatever its code's group, or a refused code of one of the groups. `groups` has bit sgc set for
/// each group that is held.
pub fn list_fault(list: &[u8], groups: u8) -> Option<SprmFault>
    ensures accepted { result ≡ None ↔ IsAcceptedList list.now groups }
    ensures first { MatchOption result
        (Nowhere (HasSprmFaultAt list.now groups))
        (IsFirstSprmFault list.now groups) }
{
    let mut at = 0;
    loop {
        match head(&list[at..]) {
            Step::End => return None,
            Step::Short => return Some(SprmFault::Short { at }),
            Step::Prl(code, _, to) => {
                if is_refused(groups, code) {
                    return Some(SprmFault::Refused { at });
                }
                at += to;
            }
        }
    }
}

/// Goes through a list, whose bytes it borrows. After the last sprm, and at one that is cut short,
/// it gives nothing more.
#[derive(Drop)]
pub struct SprmIter<'a> {
    list: &'a [u8],
    at: usize,
}

impl<'a> Model for SprmIter<'a> {
    ghost use Rattle.std.specs.Prelude.{◌≤◌, length};
    ghost use Rattle.sprm_table.specs.Cursor.{SprmCursor};

    ghost Value = { SprmCursor };

    ghost view = { λ i. record { bytes = i.list.now; at = i.at } };

    ghost invariant = { λ i. i.at ≤ length i.list.now };
}

impl<'a> SprmIter<'a> {
    /// From the first sprm of the list on.
    pub fn new(list: &'a [u8]) -> SprmIter<'a>
        ensures { result ≡ record { bytes = list.now; at = 0 } }
    {
        SprmIter { list, at: 0 }
    }

    /// The next code, and where its value begins and ends in the list.
    pub fn next(&mut self) -> Option<(Code, usize, usize)>
        ensures given { MatchOption result
            (GivesNothing self.old self.new)
            (λ prl. GivesPrl self.old self.new prl.0.0 prl.1 prl.2) }
        ensures taken { (list : List Prl) → SpellsSprmList (left self.old) list → MatchOption result
            (list ≡ [])
            (λ prl. TakesFirstPrl self.old self.new list prl.0.0 prl.1 prl.2) }
    {
        match head(&self.list[self.at..]) {
            Step::Prl(code, from, to) => {
                let start = self.at;
                self.at = start + to;
                Some((code, start + from, start + to))
            }
            Step::End => None,
            Step::Short => None,
        }
    }
}

/// What is at the front of a list.
#[derive(Clone, Copy)]
enum Step {
    End,
    Short,
    /// A sprm, and where its value begins and ends.
    Prl(Code, usize, usize),
}

/// What a list begins with: nothing more, an operand that is cut short, or an entry.
fn head(list: &[u8]) -> Step
    ensures { IsStep list.now result }
{
    if list.len() < 2 || get16(list, 0) == 0 {
        return Step::End;
    }
    let code = Code(get16(list, 0));
    match operand(code, &list[2..]) {
        None => Step::Short,
        Some((from, to)) => Step::Prl(code, 2 + from, 2 + to),
    }
}
