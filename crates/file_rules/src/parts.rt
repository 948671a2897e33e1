// The parts of a document, read in the order of their rules.
ghost use Rattle.std.specs.Prelude.{MatchResult};
ghost use Rattle.doc_bits.specs.Rules.{Hold};
ghost use Rattle.file_rules.specs.Faults.{IsReadFault};
ghost use Rattle.file_rules.specs.SectionRules.{HasSections};
ghost use Rattle.file_rules.specs.SheetRules.{HasSheet};
ghost use Rattle.file_rules.specs.NoteRules.{HasRefs, HasNoteCuts};
ghost use Rattle.file_rules.specs.HeadRules.{HasHeadCuts};
ghost use Rattle.file_rules.specs.ListRules.{HasLevels};
ghost use Rattle.file_rules.specs.BookmarkRules.{HasBookmarks};
ghost use Rattle.file_rules.specs.PartRules.{layout_rules, rest_rules, story_rules, other_rules, part_rules};
ghost use Rattle.file_rules.specs.PartRules.{HasPartLists, HoldButFormats};

use crate::formats::check_pages;
use crate::{
    Notes, ReadFault, Source, StoryFields, check_bins, check_ends, check_formats, read_bookmarks,
    read_fields, read_heads, read_levels, read_notes, read_sections, read_sheet,
};
use doc_parts::{Bookmarks, Cuts, Seds};
use std::alloc::Global;
use std::marker::Model;
use style_sheet::StyleSheet;

/// What the parts of the table stream hold.
#[derive(Drop)]
pub struct DocParts<'a> {
    pub sections: Seds,
    pub sheet: StyleSheet,
    pub fields: StoryFields,
    pub notes: Notes,
    /// The CPs that cut the header texts' story.
    pub heads: Cuts,
    /// The bytes of the levels of all lists.
    pub levels: &'a [u8],
    pub bookmarks: Bookmarks,
}

impl<'a> Model for DocParts<'a> {
    ghost use Rattle.file_rules.specs.PartRules.{PartLists};
    ghost use Rattle.file_rules.specs.Codes.{parts_code};

    ghost Value = { PartLists };

    ghost coded = { parts_code };

    ghost view = { λ p. record {
      sections = p.sections;
      sheet = p.sheet;
      main_fields = p.fields.main;
      note_fields = p.fields.notes;
      head_fields = p.fields.heads;
      refs = p.notes.refs;
      notes = p.notes.cuts;
      heads = p.heads;
      levels = p.levels.now;
      bookmarks = p.bookmarks;
    } };
}

/// Reads the parts of a document.
pub fn read_parts<'a>(alloc: Global, source: &Source<'a>) -> Result<DocParts<'a>, ReadFault>
    ensures { MatchResult result
        (λ parts. Hold (part_rules source.now) × HasPartLists source.now parts)
        (IsReadFault (part_rules source.now)) }
{
    let sections = read_layout(alloc, source)?;
    check_pages(alloc, source, &sections)?;
    read_rest(alloc, source, sections)
}

/// Reads the parts of a document, and checks its pages only where another part is refused: who reads the properties
/// checks the pages there.
pub fn read_unjudged<'a>(alloc: Global, source: &Source<'a>) -> Result<DocParts<'a>, ReadFault>
    ensures { MatchResult result
        (λ parts. HoldButFormats source.now × HasPartLists source.now parts)
        (IsReadFault (part_rules source.now)) }
{
    let sections = read_layout(alloc, source)?;
    match read_rest(alloc, source, sections) {
        Ok(parts) => Ok(parts),
        Err(fault) => {
            // The rules on pages are before those of the other part.
            check_formats(alloc, source)?;
            Err(fault)
        }
    }
}

/// Reads the styles and what belongs to the stories.
fn read_rest<'a>(
    alloc: Global,
    source: &Source<'a>,
    sections: Seds,
) -> Result<DocParts<'a>, ReadFault>
    requires { HasSections source.now sections }
    ensures { MatchResult result
        (λ parts. Hold (rest_rules source.now) × HasPartLists source.now parts)
        (IsReadFault (rest_rules source.now)) }
{
    let sheet = read_sheet(alloc, source)?;
    read_stories(alloc, source, sections, sheet)
}

/// Reads the sections, and checks the bin tables.
fn read_layout(alloc: Global, source: &Source<'_>) -> Result<Seds, ReadFault>
    ensures { MatchResult result
        (λ sections. Hold (layout_rules source.now) × HasSections source.now sections)
        (IsReadFault (layout_rules source.now)) }
{
    let sections = read_sections(alloc, source)?;
    check_bins(source)?;
    Ok(sections)
}

/// Reads what belongs to the stories, the levels of lists, and the bookmarks.
fn read_stories<'a>(
    alloc: Global,
    source: &Source<'a>,
    sections: Seds,
    sheet: StyleSheet,
) -> Result<DocParts<'a>, ReadFault>
    requires sections { HasSections source.now sections }
    requires sheet { HasSheet source.now sheet }
    ensures { MatchResult result
        (λ parts. Hold (story_rules source.now) × HasPartLists source.now parts)
        (IsReadFault (story_rules source.now)) }
{
    let fields = read_fields(alloc, source)?;
    let others = read_others(alloc, source, &sections)?;
    Ok(DocParts {
        sections,
        sheet,
        fields,
        notes: others.notes,
        heads: others.heads,
        levels: others.levels,
        bookmarks: others.bookmarks,
    })
}

/// What belongs to the stories but for their field characters, the levels of lists, and the bookmarks.
#[derive(Drop)]
struct OtherParts<'a> {
    notes: Notes,
    heads: Cuts,
    levels: &'a [u8],
    bookmarks: Bookmarks,
}

/// Reads what is behind the field characters, in the order of its rules.
fn read_others<'a>(
    alloc: Global,
    source: &Source<'a>,
    sections: &Seds,
) -> Result<OtherParts<'a>, ReadFault>
    requires { HasSections source.now sections.now }
    ensures { MatchResult result
        (λ parts. Hold (other_rules source.now) × (HasRefs source.now parts.notes.refs
        × (HasNoteCuts source.now parts.notes.cuts × (HasHeadCuts source.now parts.heads
        × (HasLevels source.now parts.levels.now × HasBookmarks source.now parts.bookmarks)))))
        (IsReadFault (other_rules source.now)) }
{
    let notes = read_notes(alloc, source)?;
    let heads = read_heads(alloc, source, sections)?;
    check_ends(source, &notes.cuts, &heads)?;
    let levels = read_levels(source)?;
    let bookmarks = read_bookmarks(alloc, source)?;
    Ok(OtherParts {
        notes,
        heads,
        levels,
        bookmarks,
    })
}
