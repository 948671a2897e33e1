// What is at CPs of the whole text: field bytes, references to notes, ends of sections.
ghost use Rattle.std.specs.Prelude.{◌≡◌, ◌+◌, ◌<◌, ◌^◌, ◌++◌};
ghost use Rattle.std.specs.Prelude.{ℕ, All, Some, map, slice_get, IfOk};
ghost use Rattle.std.specs.Prelude.{OnOk, IfSome};
ghost use Rattle.prop_map.specs.Formed.{IsPropertyMap, section_groups};
ghost use Rattle.doc_parts.specs.declared.lists.Fld.{Fld as FldType};
ghost use Rattle.file_rules.specs.PartRules.{HasPartLists};
ghost use Rattle.doc_read.specs.Sections.{section_lasts};
ghost use Rattle.doc_read.specs.Marked.{note_kind};
ghost use Rattle.doc_read.specs.Passing.{AreListed, AreCpsPassed};
ghost use Rattle.doc_read.specs.Reading.{AreMarkListsOf, mark_lists, field_at, note_at, section_at};

use crate::entries::step;
use crate::sections::SectionMaps;
use doc_bits::Memory;
use doc_parts::{Flds, Refs, Seds};
use fib_form::StoryKind;
use file_rules::{DocParts, Source};
use plain_doc::NoteKind;
use prop_map::PropMap;
use std::alloc::Global;

/// The CPs of what is at CPs, which ascend, and what is there.
#[derive(Drop)]
pub struct TextMarks {
    pub field_cps: Vec<u32>,
    pub field_bytes: Vec<u8>,
    pub note_cps: Vec<u32>,
    pub note_kinds: Vec<NoteKind>,
    /// The last CP of each section.
    pub section_cps: Vec<u32>,
}

impl TextMarks {
    /// The byte of the field character at a CP.
    pub fn byte_at(&self, next: &mut usize, cp: u32) -> Option<u8>
        requires listed { AreListed self.now.field_cps.items self.now.field_bytes.items }
        requires passed { AreCpsPassed self.now.field_cps.items next.old cp }
        ensures passed { AreCpsPassed self.now.field_cps.items next.new (cp + 1) }
        ensures byte { result ≡ field_at (mark_lists self.now) cp }
    {
        match step(&self.field_cps, next, cp) {
            None => None,
            Some(k) => Some(self.field_bytes[k]),
        }
    }

    /// The kind of the note that the unit at a CP refers to.
    pub fn kind_at(&self, next: &mut usize, cp: u32) -> Option<NoteKind>
        requires listed { AreListed self.now.note_cps.items self.now.note_kinds.items }
        requires passed { AreCpsPassed self.now.note_cps.items next.old cp }
        ensures passed { AreCpsPassed self.now.note_cps.items next.new (cp + 1) }
        ensures kind { result ≡ note_at (mark_lists self.now) cp }
    {
        match step(&self.note_cps, next, cp) {
            None => None,
            Some(k) => Some(self.note_kinds[k]),
        }
    }

    /// The properties of the section that ends with a CP.
    pub fn section_at(
        &self,
        alloc: Global,
        maps: &SectionMaps,
        next: &mut usize,
        cp: u32,
    ) -> Result<Option<PropMap>, Memory>
        requires listed { AreListed self.now.section_cps.items maps.now }
        requires maps { All (IsPropertyMap section_groups) maps.now }
        requires passed { AreCpsPassed self.now.section_cps.items next.old cp }
        ensures passed { OnOk result (AreCpsPassed self.now.section_cps.items next.new (cp + 1)) }
        ensures section { IfOk result (λ sect. sect ≡ section_at self.now.section_cps.items maps.now cp) }
        ensures formed { IfOk result (λ sect. IfSome sect (IsPropertyMap section_groups)) }
    {
        match step(&self.section_cps, next, cp) {
            None => Ok(None),
            Some(k) => Ok(Some(maps.get(k).copy(alloc)?)),
        }
    }
}

/// Reads what is at the CPs of the whole text.
pub fn read_marks(
    alloc: Global,
    source: &Source<'_>,
    parts: &DocParts<'_>,
) -> Result<TextMarks, Memory>
    requires { HasPartLists source.now parts.now }
    ensures { IfOk result (λ marks. AreMarkListsOf source.now parts.now (mark_lists marks)) }
{
    let main_len = source.story_len(StoryKind::Main);
    let notes_len = source.story_len(StoryKind::Notes);
    let heads_len = source.story_len(StoryKind::Heads);
    let mut field_cps = Vec::new(alloc);
    let mut field_bytes = Vec::new(alloc);
    push_fields(
        &mut field_cps,
        &mut field_bytes,
        0,
        main_len,
        &parts.fields.main,
    )?;
    push_fields(
        &mut field_cps,
        &mut field_bytes,
        main_len,
        notes_len,
        &parts.fields.notes,
    )?;
    push_fields(
        &mut field_cps,
        &mut field_bytes,
        main_len + notes_len,
        heads_len,
        &parts.fields.heads,
    )?;
    let mut note_cps = Vec::new(alloc);
    let mut note_kinds = Vec::new(alloc);
    push_notes(&mut note_cps, &mut note_kinds, &parts.notes.refs)?;
    let section_cps = last_cps(alloc, &parts.sections, main_len)?;
    Ok(TextMarks {
        field_cps,
        field_bytes,
        note_cps,
        note_kinds,
        section_cps,
    })
}

/// Appends the field characters of a story of so many units, which begins at a CP of the text.
fn push_fields(
    cps: &mut Vec<u32>,
    bytes: &mut Vec<u8>,
    begin: u32,
    len: u32,
    fields: &Flds,
) -> Result<(), Memory>
    requires end { begin + len < 2 ^ 32 }
    requires within { (k : ℕ) (fld : FldType) → slice_get fields.now k ≡ Some fld → fld.cp < len }
    ensures cps { OnOk result (cps.new.items ≡ cps.old.items ++ map (λ fld. begin + fld.cp) fields.now) }
    ensures bytes { OnOk result (bytes.new.items ≡ bytes.old.items ++ map (λ fld. fld.byte) fields.now) }
{
    for i in 0..fields.len() {
        let (cp, _, byte) = fields.get(i);
        cps.push(begin + cp)?;
        bytes.push(byte)?;
    }
    Ok(())
}

/// Appends the references to notes.
fn push_notes(cps: &mut Vec<u32>, kinds: &mut Vec<NoteKind>, refs: &Refs) -> Result<(), Memory>
    ensures cps { OnOk result (cps.new.items ≡ cps.old.items ++ map (λ ref. ref.cp) refs.now) }
    ensures kinds { OnOk result (kinds.new.items ≡ kinds.old.items ++ map (λ ref. note_kind ref.auto) refs.now) }
{
    for i in 0..refs.len() {
        let (cp, auto) = refs.get(i);
        cps.push(cp)?;
        kinds.push(kind_of(auto))?;
    }
    Ok(())
}

/// How a note is numbered.
fn kind_of(auto: bool) -> NoteKind
    ensures { result ≡ note_kind auto }
{
    if auto {
        NoteKind::Auto
    } else {
        NoteKind::Custom
    }
}

/// The last CP of each section.
fn last_cps(alloc: Global, sections: &Seds, main_len: u32) -> Result<Vec<u32>, Memory>
    ensures { IfOk result (λ cps. cps.items ≡ section_lasts sections.now main_len) }
{
    let mut cps = Vec::new(alloc);
    for k in 1..sections.len() {
        let (start, _) = sections.get(k);
        cps.push(start.saturating_sub(1))?;
    }
    cps.push(main_len.saturating_sub(1))?;
    Ok(cps)
}
