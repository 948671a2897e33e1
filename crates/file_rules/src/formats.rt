// The rules on the pages: the units of the text, and those that end a paragraph. Who reads the properties checks the
// pages while it reads; this names the first broken rule.
ghost use Rattle.std.specs.Prelude.{◌≡◌, ◌+◌, ◌-◌, ◌<◌, ◌≤◌, drop, length, slice_index, IfOk, MatchResult};
ghost use Rattle.doc_bits.specs.Rules.{Hold};
ghost use Rattle.file_rules.specs.Faults.{IsReadFault};
ghost use Rattle.file_rules.specs.SectionRules.{HasSections};
ghost use Rattle.file_rules.specs.BinRules.{rules_of_bins};
ghost use Rattle.file_rules.specs.FormatRules.{character_rules, mark_rules};
ghost use Rattle.file_rules.specs.FormatRules.{paragraph_end_places as places_of_paragraphs};
ghost use Rattle.file_rules.specs.FormatRules.{rules_of_formats};
ghost use Rattle.file_rules.specs.PartRules.{layout_rules};

use crate::fault::refused_page;
use crate::paragraph_ends::{SectionEnds, next_end};
use crate::{ReadFault, Source, read_sections};
use direct_props::{Places, check_places, check_rows};
use doc_bits::Memory;
use doc_parts::Seds;
use fib_form::{StoryKind, TablePart};
use fkp_pages::PageKind;
use std::alloc::Global;

/// Checks the pages of a text whose sections and bin tables are right. The sections are read anew: this is called only
/// where something is refused.
pub fn check_formats(alloc: Global, source: &Source<'_>) -> Result<(), ReadFault>
    requires { Hold (layout_rules source.now) }
    ensures { MatchResult result
        (λ _. Hold (rules_of_formats source.now))
        (IsReadFault (rules_of_formats source.now)) }
{
    let sections = read_sections(alloc, source)?;
    check_pages(alloc, source, &sections)
}

/// Checks the pages of a text with these sections: those of its characters, and those of the units that end a
/// paragraph.
pub(crate) fn check_pages(
    alloc: Global,
    source: &Source<'_>,
    sections: &Seds,
) -> Result<(), ReadFault>
    requires sections { HasSections source.now sections.now }
    requires bins { Hold (rules_of_bins source.now) }
    ensures { MatchResult result
        (λ _. Hold (rules_of_formats source.now))
        (IsReadFault (rules_of_formats source.now)) }
{
    check_characters(alloc, source)?;
    check_marks(alloc, source, sections)
}

/// Checks the pages of the characters: those of all units.
pub fn check_characters(alloc: Global, source: &Source<'_>) -> Result<(), ReadFault>
    requires { Hold (rules_of_bins source.now) }
    ensures { MatchResult result
        (λ _. Hold (character_rules source.now))
        (IsReadFault (character_rules source.now)) }
{
    let characters = source.part(TablePart::PlcfBteChpx);
    let all = source.judged_places();
    let wrong = check_rows(alloc, PageKind::Chpx, source.wd(), characters, &all)?;
    match wrong {
        None => Ok(()),
        Some(fault) => Err(refused_page(fault)),
    }
}

/// Checks the pages of the units that end a paragraph.
pub fn check_marks(alloc: Global, source: &Source<'_>, sections: &Seds) -> Result<(), ReadFault>
    requires sections { HasSections source.now sections.now }
    requires bins { Hold (rules_of_bins source.now) }
    ensures { MatchResult result
        (λ _. Hold (mark_rules source.now sections.now))
        (IsReadFault (mark_rules source.now sections.now)) }
{
    let ends = paragraph_places(alloc, source, sections)?;
    let paragraphs = source.part(TablePart::PlcfBtePapx);
    let wrong = check_places(alloc, PageKind::Papx, source.wd(), paragraphs, &ends)?;
    match wrong {
        None => Ok(()),
        Some(fault) => Err(refused_page(fault)),
    }
}

/// The places in `WordDocument` of the units that end a paragraph, by CP.
fn paragraph_places(alloc: Global, source: &Source<'_>, sections: &Seds) -> Result<Vec<u32>, Memory>
    requires { HasSections source.now sections.now }
    ensures { IfOk result (λ places. places.items ≡ places_of_paragraphs source.now sections.now) }
{
    let units = source.judged_units();
    let main_len = source.story_len(StoryKind::Main) as usize;
    let mut ends = SectionEnds {
        sections,
        main_len,
        met: 1,
    };
    let mut walk = PlaceWalk {
        rest: source.judged_places(),
        passed: 0,
    };
    let mut places = Vec::new(alloc);
    let mut cp = 0;
    while let Some(end) = next_end(units, &mut ends, cp) {
        places.push(place_of(&mut walk, end))?;
        cp = end + 1;
    }
    Ok(places)
}

/// The places from a CP on, before which `passed` ones are.
#[derive(Drop)]
struct PlaceWalk<'a> {
    rest: Places<'a>,
    passed: usize,
}

/// Goes on to the place of a CP.
fn place_of(walk: &mut PlaceWalk<'_>, cp: usize) -> u32
    requires behind { walk.old.passed ≤ cp }
    requires there { cp < walk.old.passed + length walk.old.rest }
    ensures passed { walk.new.passed ≡ cp }
    ensures rest { walk.new.rest ≡ drop (cp - walk.old.passed) walk.old.rest }
    ensures place { result ≡ slice_index walk.old.rest (cp - walk.old.passed) }
{
    walk.rest = walk.rest.skip(cp - walk.passed);
    walk.passed = cp;
    walk.rest.first()
}
