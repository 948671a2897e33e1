// The CPs at which the marks of further stories are said to be, and whether an item is such a mark.
ghost use Rattle.std.specs.Prelude.{◌≡◌, ◌==◌, ◌≤◌, if◌then◌else◌, Some, None, length, IsTrue, IfOk};
ghost use Rattle.std.specs.List.{list_any};
ghost use Rattle.std.specs.List.Sorted.{IsPermutation};
ghost use Rattle.doc_columns.specs.Attached.{has_something};
ghost use Rattle.doc_losses.specs.References.{table_cps, mark_cps, main_mark as main_mark_of, head_mark as head_mark_of};
ghost use Rattle.doc_losses.specs.References.{mark_of_unit as mark_by_unit, where_named, mark_pair, mark_size};
ghost use Rattle.doc_losses.specs.References.{has_no_marks as no_marks_of};
ghost use Rattle.doc_losses.specs.Marks.{names_of_marks, AreFileMarks, NamesNoMark};

use doc_bits::{Memory, Story, get32};
use doc_columns::Attached;
use fib_versions::{AnyFib, Further};
use std::alloc::Global;
use std::marker::Model;

/// The mark of a comment.
pub const COMMENT_MARK: u16 = 0x05;

/// The mark of an endnote.
const ENDNOTE_MARK: u16 = 0x02;

/// The mark of a shape.
const SHAPE_MARK: u16 = 0x08;

/// CPs in their order.
#[derive(Drop)]
pub(crate) struct CpSet {
    cps: Vec<usize>,
}

impl Model for CpSet {
    ghost use Rattle.std.specs.Prelude.{ℕ, List};
    ghost use Rattle.std.specs.Ordering.{nat_cmp};
    ghost use Rattle.std.specs.List.Sorted.{IsSorted};

    ghost Value = { List ℕ };

    ghost view = { λ s. s.cps.items };

    ghost invariant = { λ s. IsSorted nat_cmp s.cps.items };
}

impl CpSet {
    /// These CPs, put in order.
    fn of(mut cps: Vec<usize>) -> CpSet
        ensures { IsPermutation cps.items result }
    {
        cps.sort_unstable();
        CpSet { cps }
    }

    /// Whether no CP is there.
    fn is_empty(&self) -> bool
        ensures { IsTrue result → length self.now ≡ 0 }
    {
        self.cps.len() == 0
    }

    /// Whether a CP is there.
    fn has(&self, cp: usize) -> bool
        ensures { result ≡ list_any (λ named. named == cp) self.now }
    {
        match self.cps.binary_search(&cp) {
            Ok(_) => true,
            Err(_) => false,
        }
    }
}

/// The CPs of the marks of the stories that are left out, which the tables of a file name.
#[derive(Drop)]
pub struct Marks {
    pub(crate) comments: CpSet,
    pub(crate) endnotes: CpSet,
    pub(crate) boxes: CpSet,
    pub(crate) head_boxes: CpSet,
}

impl Marks {
    /// Those of a file.
    pub fn read(alloc: Global, fib: &AnyFib<'_>, table: &[u8]) -> Result<Marks, Memory>
        ensures { IfOk result (AreFileMarks fib.now table.now) }
    {
        let comments = cp_set(alloc, fib, table, Further::Comments)?;
        let endnotes = cp_set(alloc, fib, table, Further::Endnotes)?;
        let boxes = cp_set(alloc, fib, table, Further::TextBoxes)?;
        let head_boxes = cp_set(alloc, fib, table, Further::HeaderTextBoxes)?;
        Ok(Marks {
            comments,
            endnotes,
            boxes,
            head_boxes,
        })
    }

    /// Whether no mark is said to be anywhere.
    pub fn are_none(&self) -> bool
        ensures { IsTrue result → NamesNoMark (names_of_marks self.now) }
    {
        if !self.comments.is_empty() || !self.endnotes.is_empty() {
            return false;
        }
        self.boxes.is_empty() && self.head_boxes.is_empty()
    }

    /// Whether a mark of the story is said to be at a CP.
    fn names(&self, story: Further, cp: usize) -> bool
        ensures { result ≡ names_of_marks self.now story cp }
    {
        match story {
            Further::Comments => self.comments.has(cp),
            Further::Endnotes => self.endnotes.has(cp),
            Further::TextBoxes => self.boxes.has(cp),
            Further::HeaderTextBoxes => self.head_boxes.has(cp),
        }
    }

    /// The story whose mark a character at a CP of the main text or of the header texts is, with what is beside it.
    pub(crate) fn mark_of(
        &self,
        story: Story,
        cp: usize,
        unit: u16,
        attached: &Attached,
    ) -> Option<Further>
        ensures { result ≡ (if has_something attached.now then None else
            where_named (names_of_marks self.now) cp (mark_by_unit story unit)) }
    {
        if attached.is_something() {
            return None;
        }
        match mark_of_unit(story, unit) {
            None => None,
            Some(to) => self.where_named(to, cp),
        }
    }

    /// The story, where a mark of it is said to be at the CP.
    fn where_named(&self, to: Further, cp: usize) -> Option<Further>
        ensures { result ≡ where_named (names_of_marks self.now) cp (Some to) }
    {
        if self.names(to, cp) { Some(to) } else { None }
    }
}

/// The story whose mark a character may be.
fn mark_of_unit(story: Story, unit: u16) -> Option<Further>
    ensures { result ≡ mark_by_unit story unit }
{
    match story {
        Story::Main => main_mark(unit),
        Story::Note(_) => None,
        Story::Head(_) => head_mark(unit),
    }
}

/// The story whose mark a character of the main text may be.
fn main_mark(unit: u16) -> Option<Further>
    ensures { result ≡ main_mark_of unit }
{
    if unit == COMMENT_MARK {
        Some(Further::Comments)
    } else if unit == ENDNOTE_MARK {
        Some(Further::Endnotes)
    } else if unit == SHAPE_MARK {
        Some(Further::TextBoxes)
    } else {
        None
    }
}

/// The story whose mark a character of a header text may be.
fn head_mark(unit: u16) -> Option<Further>
    ensures { result ≡ head_mark_of unit }
{
    if unit == SHAPE_MARK {
        Some(Further::HeaderTextBoxes)
    } else {
        None
    }
}

/// The CPs of the marks of a story.
fn cp_set(alloc: Global, fib: &AnyFib<'_>, table: &[u8], story: Further) -> Result<CpSet, Memory>
    ensures { IfOk result (λ set. IsPermutation (mark_cps fib.now table.now story) set) }
{
    if has_no_marks(fib, story) {
        return Ok(CpSet::of(Vec::new(alloc)));
    }
    let cps = table_cps(alloc, fib.part(table, pair_of(story)), size_of(story))?;
    Ok(CpSet::of(cps))
}

/// Whether a story has no marks, whatever its table says.
fn has_no_marks(fib: &AnyFib<'_>, story: Further) -> bool
    ensures { result ≡ no_marks_of fib.now story }
{
    match story {
        Further::Comments => fib.further(Further::Comments) == 0,
        Further::Endnotes => false,
        Further::TextBoxes => false,
        Further::HeaderTextBoxes => false,
    }
}

/// The pair of the table of the marks of a story.
fn pair_of(story: Further) -> u16
    ensures pair { result ≡ mark_pair story }
    ensures few { result ≤ 46 }
{
    match story {
        Further::Comments => 4,
        Further::Endnotes => 46,
        Further::TextBoxes => 40,
        Further::HeaderTextBoxes => 41,
    }
}

/// How many bytes such a table has for a mark beside its CP.
fn size_of(story: Further) -> usize
    ensures size { result ≡ mark_size story }
    ensures few { result ≤ 30 }
{
    match story {
        Further::Comments => 30,
        Further::Endnotes => 2,
        Further::TextBoxes => 26,
        Further::HeaderTextBoxes => 26,
    }
}

/// The CPs of a table with so many bytes beside each, but the last one.
fn table_cps(alloc: Global, table: &[u8], size: usize) -> Result<Vec<usize>, Memory>
    requires { size ≤ 30 }
    ensures { IfOk result (λ cps. cps.items ≡ table_cps size table.now) }
{
    let count = table.len().saturating_sub(4) / (4 + size);
    let mut cps = Vec::with_capacity(alloc, count)?;
    for k in 0..count {
        cps.push(get32(table, 4 * k) as usize)?;
    }
    Ok(cps)
}
