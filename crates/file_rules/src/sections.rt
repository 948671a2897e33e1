// The rules on the sections, one function a rule.
ghost use Rattle.std.specs.Prelude.{◌↔◌, ◌<◌, ◌^◌};
ghost use Rattle.std.specs.Prelude.{◌+◌, ℕ, List, length, IsTrue, MatchResult, IfSome, IfOk, OnOk};
ghost use Rattle.std.specs.List.{All};
ghost use Rattle.doc_bits.specs.Rules.{Hold, LeastOrNone, Nowhere};
ghost use Rattle.fib_form.specs.declared.table_parts.TablePart.TheVariants.{PlcfSed};
ghost use Rattle.fib_form.specs.declared.stories.StoryKind.TheVariants.{Main};
ghost use Rattle.file_rules.specs.Source.{part_place, story_units};
ghost use Rattle.file_rules.specs.Faults.{IsReadFault};
ghost use Rattle.file_rules.specs.SectionRules.{LacksSepx, HasSepxFault, BreaksSectionMarks, BreaksSepxs};
ghost use Rattle.file_rules.specs.SectionRules.{BreaksSepxLists, HasSections, sed_rules, rules_of_sections};
ghost use Rattle.file_rules.specs.SectionRules.{AreJudgedSepxs, IsSepxPlace, IsSepxRange};
ghost use Rattle.overlapping_grpprls.specs.Walks.{IsAcceptedRange};
ghost use Rattle.prop_map.specs.Formed.{section_groups};

use crate::fault::refused_part;
use crate::{ReadFault, Source};
use doc_bits::{Memory, Where, get16, lesser};
use doc_parts::{NO_SEPX, Seds, fc_sepx_place, sections, sepx};
use fib_form::{StoryKind, TablePart};
use grpprl_index::ListPlaces;
use overlapping_grpprls::{ListRange, right_lists};
use prop_map::SECTION_GROUPS;
use sprm_table::list_fault;
use std::alloc::Global;
use text_codes::SECTION_MARK;

const RULE_SECTION_MARK: u8 = 34;

const RULE_SEPX: u8 = 35;

const RULE_SEPX_LIST: u8 = 36;

/// The bytes of a Sepx before its list: how many bytes the list has.
const SEPX_HEAD: usize = 2;

/// Reads the sections of the main text.
pub fn read_sections(alloc: Global, source: &Source<'_>) -> Result<Seds, ReadFault>
    ensures { MatchResult result
        (λ list. Hold (rules_of_sections source.now) × HasSections source.now list)
        (IsReadFault (rules_of_sections source.now)) }
{
    let plc = source.part(TablePart::PlcfSed);
    let at = source.place(TablePart::PlcfSed);
    let list = match sections(alloc, plc, at, source.story_len(StoryKind::Main)) {
        Ok(list) => list,
        Err(fault) => return Err(refused_part(fault)),
    };
    match check_sections(alloc, source, &list) {
        Ok(()) => Ok(list),
        Err(fault) => Err(fault),
    }
}

/// Names the first broken rule on each section.
fn check_sections(alloc: Global, source: &Source<'_>, list: &Seds) -> Result<(), ReadFault>
    requires { HasSections source.now list.now }
    ensures { MatchResult result
        (λ _. Hold (sed_rules source.now list.now))
        (IsReadFault (sed_rules source.now list.now)) }
{
    if let Some(offset) = missing_section_mark(source, list) {
        return Err(ReadFault::Refused {
            rule: RULE_SECTION_MARK,
            place: Where::Table,
            offset,
        });
    }
    if let Some(offset) = missing_sepx(source, list) {
        return Err(ReadFault::Refused {
            rule: RULE_SEPX,
            place: Where::Table,
            offset,
        });
    }
    if let Some(offset) = sepx_fault(alloc, source, list)? {
        return Err(ReadFault::Refused {
            rule: RULE_SEPX_LIST,
            place: Where::Wd,
            offset,
        });
    }
    Ok(())
}

/// The first section that begins after another unit than a section mark, by the place of its CP.
fn missing_section_mark(source: &Source<'_>, list: &Seds) -> Option<u32>
    requires { HasSections source.now list.now }
    ensures { LeastOrNone
        (BreaksSectionMarks (story_units source.now Main) list.now (part_place source.now PlcfSed))
        result }
{
    let units = source.units(StoryKind::Main);
    let at = source.place(TablePart::PlcfSed);
    for k in 1..list.len() {
        let (start, _) = list.get(k);
        if units[start as usize - 1] != SECTION_MARK {
            return Some(at + 4 * k as u32);
        }
    }
    None
}

/// The first section whose Sepx is not there, by the place of its fcSepx.
fn missing_sepx(source: &Source<'_>, list: &Seds) -> Option<u32>
    requires { HasSections source.now list.now }
    ensures { LeastOrNone (BreaksSepxs source.now.wd list.now (part_place source.now PlcfSed)) result }
{
    let wd = source.wd();
    let at = source.place(TablePart::PlcfSed);
    for k in 0..list.len() {
        let (_, fc) = list.get(k);
        if lacks_sepx(wd, fc) {
            return Some(fc_sepx_place(at, list.len(), k));
        }
    }
    None
}

/// Whether a section has properties that are not there.
fn lacks_sepx(wd: &[u8], fc: u32) -> bool
    ensures { IsTrue result ↔ LacksSepx wd.now fc }
{
    if fc == NO_SEPX {
        return false;
    }
    sepx(wd, fc).is_none()
}

/// The least place of a fault in the properties of a section. They are in any order, and each Sepx is checked once:
/// those that lie over one another in one walk.
fn sepx_fault(alloc: Global, source: &Source<'_>, list: &Seds) -> Result<Option<u32>, Memory>
    requires { Nowhere (BreaksSepxs source.now.wd list.now (part_place source.now PlcfSed)) }
    ensures { IfOk result (LeastOrNone (BreaksSepxLists source.now.wd list.now)) }
{
    let wd = source.wd();
    let mut judged = walked_sepxs(alloc, wd, list)?;
    let mut least = None;
    for k in 0..list.len() {
        let (_, fc) = list.get(k);
        let fault = judged.fault(wd, fc)?;
        least = lesser(least, fault);
    }
    Ok(least)
}

/// The Sepxs that lie over one another and are right, so far as few walks tell.
fn walked_sepxs(alloc: Global, wd: &[u8], list: &Seds) -> Result<JudgedSepxs, Memory>
    ensures { IfOk result (λ judged. AreJudgedSepxs wd.now judged.places judged.faults.items) }
{
    let ranges = sepx_ranges(alloc, wd, list)?;
    let right = right_lists(alloc, wd, &ranges, SECTION_GROUPS)?;
    let mut judged = JudgedSepxs::new(alloc);
    for range in &right {
        judged.add_right(wd, *range)?;
    }
    Ok(judged)
}

/// Where the lists of the Sepxs are in `WordDocument`.
pub fn sepx_ranges(alloc: Global, wd: &[u8], list: &Seds) -> Result<Vec<ListRange>, Memory>
    ensures { IfOk result (λ ranges. All (IsSepxRange wd.now) ranges.items) }
{
    let mut ranges = Vec::new(alloc);
    for k in 0..list.len() {
        let (_, fc) = list.get(k);
        push_range(&mut ranges, wd, fc)?;
    }
    Ok(ranges)
}

/// Adds where the list of the Sepx at `fc` is, if it is there.
fn push_range(ranges: &mut Vec<ListRange>, wd: &[u8], fc: u32) -> Result<(), Memory>
    requires { All (IsSepxRange wd.now) ranges.old.items }
    ensures { OnOk result (All (IsSepxRange wd.now) ranges.new.items) }
{
    if fc == NO_SEPX {
        return Ok(());
    }
    let Some((from, to)) = sepx(wd, fc) else {
        return Ok(());
    };
    ranges.push(ListRange { from, to })?;
    Ok(())
}

/// Where the Sepx is whose list this is. Nothing where it is that of none.
pub fn sepx_place(wd: &[u8], range: ListRange) -> Option<usize>
    ensures { IfSome result (IsSepxPlace wd.now range) }
{
    if range.from < SEPX_HEAD || wd.len() < range.from {
        return None;
    }
    let place = range.from - SEPX_HEAD;
    if range.from + get16(wd, place) as usize != range.to {
        return None;
    }
    Some(place)
}

/// The first faults of Sepxs that were checked, by their places.
#[derive(Drop)]
struct JudgedSepxs {
    places: ListPlaces,
    faults: Vec<Option<u32>>,
}

impl JudgedSepxs {
    /// No Sepxs. It takes no memory.
    fn new(alloc: Global) -> JudgedSepxs
        ensures { (wd : List ℕ) → AreJudgedSepxs wd result.places result.faults.items }
    {
        JudgedSepxs {
            places: ListPlaces::new(alloc),
            faults: Vec::new(alloc),
        }
    }

    /// Notes that the list of a Sepx is right.
    fn add_right(&mut self, wd: &[u8], range: ListRange) -> Result<(), Memory>
        requires right { IsAcceptedRange wd.now section_groups range }
        requires judged { AreJudgedSepxs wd.now self.old.places self.old.faults.items }
        ensures { OnOk result (AreJudgedSepxs wd.now self.new.places self.new.faults.items) }
    {
        let Some(place) = sepx_place(wd, range) else {
            return Ok(());
        };
        if self.places.number_of(place, place).is_some() {
            return Ok(());
        }
        self.faults.push(None)?;
        self.places.add(place, place)?;
        Ok(())
    }

    /// The first fault in the properties of a section, as `properties_fault` has it. A Sepx is checked once.
    fn fault(&mut self, wd: &[u8], fc: u32) -> Result<Option<u32>, Memory>
        requires there { ¬ (LacksSepx wd.now fc) }
        requires small { length wd.now < 2 ^ 32 }
        requires judged { AreJudgedSepxs wd.now self.old.places self.old.faults.items }
        ensures judged { OnOk result (AreJudgedSepxs wd.now self.new.places self.new.faults.items) }
        ensures fault { IfOk result (LeastOrNone (HasSepxFault wd.now fc)) }
    {
        let place = fc as usize;
        if let Some(known) = self.places.number_of(place, place) {
            let fault = self.faults[known];
            return Ok(fault);
        }
        let fault = properties_fault(wd, fc);
        self.faults.push(fault)?;
        self.places.add(place, place)?;
        Ok(fault)
    }
}

/// The first fault in the properties of a section, by its place in `WordDocument`.
fn properties_fault(wd: &[u8], fc: u32) -> Option<u32>
    requires there { ¬ (LacksSepx wd.now fc) }
    requires small { length wd.now < 2 ^ 32 }
    ensures { LeastOrNone (HasSepxFault wd.now fc) result }
{
    if fc == NO_SEPX {
        return None;
    }
    let Some((from, to)) = sepx(wd, fc) else {
        return None;
    };
    match list_fault(&wd[from..to], SECTION_GROUPS) {
        None => None,
        Some(fault) => Some((from + fault.at()) as u32),
    }
}
