// What is beside the units of a piece, stretch by stretch.
ghost use Rattle.std.specs.Prelude.{◌≡◌, ◌↔◌, ◌+◌, ◌-◌, ◌<◌, ◌≤◌, ℕ, false, length, slice_index};
ghost use Rattle.std.specs.Prelude.{IfOk, IfSome, IsTrue, MatchOption, OnOk};
ghost use Rattle.prop_map.specs.Formed.{IsPropertyMap, paragraph_groups};
ghost use Rattle.prop_map.specs.declared.modifiers.Modifier.{Modifier as ModifierValue};
ghost use Rattle.text_codes.specs.Paragraph.{is_paragraph_end};
ghost use Rattle.fkp_pages.specs.declared.kind.PageKind.TheVariants.{Papx};
ghost use Rattle.direct_props.specs.Direct.{IsDirectMark};
ghost use Rattle.direct_props.specs.PageRules.{IsValidPlace};
ghost use Rattle.doc_read.specs.Passing.{AddsEach};
ghost use Rattle.doc_read.specs.Reading.{ArePassed, HaveValidMarks, IsPieceReader};
ghost use Rattle.doc_read.specs.Attached.{IsAttachedAt};

use crate::part::TextPart;
use crate::reading::{PieceReader, PlcCursors};
use direct_props::DirectMark;
use doc_bits::Memory;
use doc_columns::Attached;
use plain_doc::Mark;
use run_lists::Runs;
use std::alloc::Global;
use text_codes::{bare_len, ends_paragraph};

/// The CPs of a piece that are left: from one to before another.
#[derive(Clone, Copy)]
pub(crate) struct CpRange {
    pub(crate) cp: usize,
    pub(crate) end: usize,
}

/// Appends what is attached to the units of a piece, and answers whether each that ends a paragraph has a right page
/// for
/// its mark.
pub(crate) fn push_attachments(
    alloc: Global,
    part: &TextPart<'_>,
    piece: CpRange,
    reader: &mut PieceReader<'_>,
    attachments: &mut Runs<Attached>,
    passed: &mut PlcCursors,
) -> Result<bool, Memory>
    requires from { part.now.from ≤ piece.cp }
    requires reader { IsPieceReader part.now.view reader.old }
    requires ordered { piece.cp ≤ piece.end }
    requires within { piece.end ≤ length part.now.view.units }
    requires here { length attachments.old ≡ piece.cp }
    requires passed { ArePassed part.now.view.marks passed.old piece.cp }
    ensures same { reader.new ≡ reader.old }
    ensures right { IfOk result (λ right. IsTrue right ↔ HaveValidMarks part.now.view piece.cp piece.end) }
    ensures passed { IfOk result (λ right. IsTrue right → ArePassed part.now.view.marks passed.new piece.end) }
    ensures attachments { IfOk result (λ right. IsTrue right
        → AddsEach (IsAttachedAt part.now.view reader.old.characters.modifier)
        (piece.end - piece.cp) attachments.old attachments.new) }
{
    let mut cp = piece.cp;
    while cp < piece.end {
        let left = CpRange { cp, end: piece.end };
        let Some(next) = push_stretch(alloc, part, left, reader, attachments, passed)? else {
            return Ok(false);
        };
        cp = next;
    }
    Ok(true)
}

/// Appends what is beside the units up to where something is, and what is there. It answers the next CP;
/// nothing where a unit ends a paragraph that has no right page for its mark.
fn push_stretch(
    alloc: Global,
    part: &TextPart<'_>,
    left: CpRange,
    reader: &mut PieceReader<'_>,
    attachments: &mut Runs<Attached>,
    passed: &mut PlcCursors,
) -> Result<Option<usize>, Memory>
    requires from { part.now.from ≤ left.cp }
    requires reader { IsPieceReader part.now.view reader.old }
    requires some { left.cp < left.end }
    requires within { left.end ≤ length part.now.view.units }
    requires here { length attachments.old ≡ left.cp }
    requires passed { ArePassed part.now.view.marks passed.old left.cp }
    ensures same { reader.new ≡ reader.old }
    ensures right { IfOk result (λ next. MatchOption next
        (¬ (HaveValidMarks part.now.view left.cp left.end))
        (HaveValidMarks part.now.view left.cp)) }
    ensures on { IfOk result (λ next. IfSome next (λ next. left.cp < next)) }
    ensures inside { IfOk result (λ next. IfSome next (λ next. next ≤ left.end)) }
    ensures passed { IfOk result (λ next. IfSome next (ArePassed part.now.view.marks passed.new)) }
    ensures attachments { IfOk result (λ next. IfSome next (λ next.
        AddsEach (IsAttachedAt part.now.view reader.old.characters.modifier)
        (next - left.cp) attachments.old attachments.new)) }
{
    let bare = push_bare(part, left, attachments, passed)?;
    if bare == left.end {
        return Ok(Some(bare));
    }
    let Some(attached) = attached_at(alloc, part, bare as u32, reader, passed)? else {
        return Ok(None);
    };
    attachments.add(1, attached)?;
    Ok(Some(bare + 1))
}

/// Appends nothing for each unit before the first where something may be, and answers the CP of that one.
fn push_bare(
    part: &TextPart<'_>,
    left: CpRange,
    attachments: &mut Runs<Attached>,
    passed: &PlcCursors,
) -> Result<usize, Memory>
    requires some { left.cp < left.end }
    requires within { left.end ≤ length part.now.view.units }
    requires here { length attachments.old ≡ left.cp }
    requires passed { ArePassed part.now.view.marks passed.now left.cp }
    ensures behind { IfOk result (λ bare. left.cp ≤ bare) }
    ensures inside { IfOk result (λ bare. bare ≤ left.end) }
    ensures few { IfOk result (λ bare. bare ≤ 500000) }
    ensures here { IfOk result (λ bare. length attachments.new ≡ bare) }
    ensures right { IfOk result (HaveValidMarks part.now.view left.cp) }
    ensures passed { IfOk result (ArePassed part.now.view.marks passed.now) }
    ensures attachments { IfOk result (λ bare. (modifier : ModifierValue)
        → AddsEach (IsAttachedAt part.now.view modifier) (bare - left.cp) attachments.old attachments.new) }
{
    let marked = (part.next_marked(passed) as usize).min(left.end);
    let until = bare_until(part.text().units, left.cp, marked);
    if until <= left.cp {
        return Ok(left.cp);
    }
    attachments.add((until - left.cp) as u32, Attached::none())?;
    Ok(until)
}

/// The first CP from one to before another whose unit ends a paragraph wherever it is, or the other CP.
fn bare_until(units: &[u16], cp: usize, until: usize) -> usize
    requires within { until ≤ length units.now }
    ensures inside { cp < result → result ≤ until }
    ensures bare { (at : ℕ) → cp ≤ at → at < result → is_paragraph_end (slice_index units.now at) false ≡ false }
{
    if until <= cp {
        return until;
    }
    cp + bare_len(&units[cp..until])
}

/// Reads what is beside the unit of a CP, which is in a piece of the reader; nothing where it ends a paragraph
/// that has no right page for its mark.
fn attached_at(
    alloc: Global,
    part: &TextPart<'_>,
    cp: u32,
    reader: &mut PieceReader<'_>,
    passed: &mut PlcCursors,
) -> Result<Option<Attached>, Memory>
    requires within { cp < length part.now.view.units }
    requires from { part.now.from ≤ cp }
    requires reader { IsPieceReader part.now.view reader.old }
    requires passed { ArePassed part.now.view.marks passed.old cp }
    ensures same { reader.new ≡ reader.old }
    ensures passed { OnOk result (ArePassed part.now.view.marks passed.new (cp + 1)) }
    ensures attached { IfOk result (λ attached. MatchOption attached
        (¬ (HaveValidMarks part.now.view cp (cp + 1)))
        (λ attached. HaveValidMarks part.now.view cp (cp + 1)
        × IsAttachedAt part.now.view reader.old.characters.modifier cp attached)) }
{
    let text = part.text();
    let unit = text.units[cp as usize];
    let fld = text.marks.byte_at(&mut passed.field, cp);
    let note = text.marks.kind_at(&mut passed.note, cp);
    let sect = text
        .marks
        .section_at(alloc, text.maps, &mut passed.section, cp)?;
    let ends = ends_paragraph(unit, sect.is_some());
    if !ends {
        return Ok(Some(Attached {
            fld,
            note,
            mark: None,
            sect,
        }));
    }
    let Some(mark) = mark_of(alloc, part, cp, reader)? else {
        return Ok(None);
    };
    Ok(Some(Attached {
        fld,
        note,
        mark: Some(mark),
        sect,
    }))
}

/// Reads the mark of a CP; nothing where it has no right page for one.
fn mark_of(
    alloc: Global,
    part: &TextPart<'_>,
    cp: u32,
    reader: &mut PieceReader<'_>,
) -> Result<Option<Mark>, Memory>
    requires within { cp < length part.now.view.units }
    requires from { part.now.from ≤ cp }
    requires reader { IsPieceReader part.now.view reader.old }
    ensures same { reader.new ≡ reader.old }
    ensures mark { IfOk result (λ mark. MatchOption mark
        (¬ (IsValidPlace Papx part.now.view.wd part.now.view.paragraphs (slice_index part.now.view.places cp)))
        (λ mark. IsValidPlace Papx part.now.view.wd part.now.view.paragraphs (slice_index part.now.view.places cp)
        × IsDirectMark part.now.view.wd part.now.view.paragraphs (slice_index part.now.view.places cp)
        reader.old.characters.modifier mark.istd mark.pap)) }
    ensures formed { IfOk result (λ mark. IfSome mark (λ mark. IsPropertyMap paragraph_groups mark.pap)) }
{
    let place = part.place(cp as usize);
    let Some(direct) = reader.marks.read_mark(alloc, place)? else {
        return Ok(None);
    };
    let DirectMark { istd, pap } = direct;
    Ok(Some(Mark { istd, pap }))
}
