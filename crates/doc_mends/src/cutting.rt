// References to stories that are left out, cut from the texts in one pass.
ghost use Rattle.std.specs.Prelude.{◌≡◌, ◌+◌, ◌^◌, ◌<◌, ◌≤◌, [], ◌∷◌, ◌++◌, not, length, map};
ghost use Rattle.std.specs.Prelude.{if◌then◌else◌, IfOk, OnOk, OnErr};
ghost use Rattle.std.specs.List.{count_by};
ghost use Rattle.run_lists.specs.Spread.{expanded, total_len};
ghost use Rattle.doc_losses.specs.References.{references as references_of};
ghost use Rattle.doc_losses.specs.Marks.{names_of_marks};
ghost use Rattle.doc_model.specs.Marks.{HasFormedBookmarks};
ghost use Rattle.doc_mends.specs.declared.mends.Mend.TheVariants.{CutReference};
ghost use Rattle.doc_bits.specs.declared.places.Story.TheVariants as stories;
ghost use Rattle.doc_patch.specs.Changes.{changed_at};
ghost use Rattle.doc_mends.specs.Cuts.{reference_flags as flags_of, unflagged, cut_text as text_after};
ghost use Rattle.doc_mends.specs.Cuts.{cut_heads as heads_after, bookmark_left, bookmarks_left, end_left};
ghost use Rattle.doc_mends.specs.Cuts.{AreEndCounts, references_cut};

use crate::mends::Mend;
use doc_bits::{Memory, Story};
use doc_columns::{ColumnDocument, ColumnTexts, Columns};
use doc_losses::{Marks, references, text_marks};
use doc_parts::{Bookmark, Bookmarks};
use run_lists::{Run, Runs, Shared};
use std::alloc::Global;
use std::marker::Model;
use text_losses::Reference;

/// Cuts the references to stories that are left out. The ends of bookmarks go with the main text. Without memory the
/// styles and what is carried stay.
pub fn cut_references(
    alloc: Global,
    document: &mut ColumnDocument,
    marks: &Marks,
) -> Result<Vec<Mend>, Memory>
    requires { HasFormedBookmarks document.old }
    ensures document { OnOk result (document.new ≡ references_cut (names_of_marks marks.now) document.old) }
    ensures mends { IfOk result
        (λ mends. mends.items ≡ map CutReference (references_of (names_of_marks marks.now) document.old)) }
    ensures err { OnErr result (document.new.carried ≡ document.old.carried) }
{
    let found = references(alloc, marks, document)?;
    cut_where_found(alloc, document, marks, &found)?;
    let mends = cut_mends(alloc, &found)?;
    Ok(mends)
}

/// Cuts these, where there are some.
fn cut_where_found(
    alloc: Global,
    document: &mut ColumnDocument,
    marks: &Marks,
    found: &[Reference],
) -> Result<(), Memory>
    requires formed { HasFormedBookmarks document.old }
    requires found { found.now ≡ references_of (names_of_marks marks.now) document.old }
    ensures ok { OnOk result (document.new ≡ references_cut (names_of_marks marks.now) document.old) }
    ensures err { OnErr result (document.new.carried ≡ document.old.carried) }
{
    if found.is_empty() {
        return Ok(());
    }
    cut_main(alloc, document, marks)?;
    cut_heads(alloc, &mut document.heads, marks)?;
    Ok(())
}

/// The mends of these references.
fn cut_mends(alloc: Global, found: &[Reference]) -> Result<Vec<Mend>, Memory>
    ensures { IfOk result (λ mends. mends.items ≡ map CutReference found.now) }
{
    let mut mends = Vec::with_capacity(alloc, found.len())?;
    for k in 0..found.len() {
        mends.push(Mend::CutReference(found[k]))?;
    }
    Ok(mends)
}

/// Cuts those of the main text.
fn cut_main(alloc: Global, document: &mut ColumnDocument, marks: &Marks) -> Result<(), Memory>
    ensures ok { OnOk result (document.new ≡ record document.old {
      main = text_after (names_of_marks marks.now) stories.Main 0 document.old.main;
      bookmarks = bookmarks_left (flags_of (names_of_marks marks.now) stories.Main 0 document.old.main)
          document.old.bookmarks;
    }) }
    ensures err { OnErr result (document.new.carried ≡ document.old.carried) }
{
    let _len = document.main.len();
    let flags = reference_flags(alloc, marks, Story::Main, 0, &document.main)?;
    let made = cut_text(alloc, &document.main, &flags)?;
    document.main = made;
    move_bookmarks(alloc, &mut document.bookmarks, &flags)?;
    Ok(())
}

/// Cuts those of the header texts.
fn cut_heads(alloc: Global, heads: &mut ColumnTexts, marks: &Marks) -> Result<(), Memory>
    ensures { OnOk result (heads.new ≡ heads_after (names_of_marks marks.now) heads.old) }
{
    let mut begin = 0;
    for number in 0..heads.len() {
        let len = heads.get(number).len();
        cut_head(alloc, heads, marks, number, begin)?;
        begin += len;
    }
    Ok(())
}

/// Cuts those of one of the header texts, which begins at a CP of them.
fn cut_head(
    alloc: Global,
    heads: &mut ColumnTexts,
    marks: &Marks,
    number: usize,
    begin: usize,
) -> Result<(), Memory>
    requires there { number < length heads.old }
    requires room { begin + 2 ^ 32 ≤ 2 ^ 64 }
    ensures { OnOk result (heads.new ≡
        changed_at heads.old number (text_after (names_of_marks marks.now) (stories.Head number) begin)) }
{
    let _count = heads.len();
    let text = heads.get(number);
    let _len = text.len();
    let flags = reference_flags(alloc, marks, Story::Head(number as u32), begin, text)?;
    let made = cut_text(alloc, text, &flags)?;
    heads.replace(number, made);
    Ok(())
}

/// Which items of a text are references.
fn reference_flags(
    alloc: Global,
    marks: &Marks,
    story: Story,
    begin: usize,
    text: &Columns,
) -> Result<Vec<bool>, Memory>
    requires { begin + length text.now < 2 ^ 64 }
    ensures { IfOk result (λ flags. flags.items ≡ flags_of (names_of_marks marks.now) story begin text.now) }
{
    let found = text_marks(alloc, marks, story, begin, text)?;
    let mut flags = Vec::with_capacity(alloc, found.len())?;
    for k in 0..found.len() {
        flags.push(found[k].is_some())?;
    }
    Ok(flags)
}

/// The items of a text that have no flag.
fn cut_text(alloc: Global, text: &Columns, flags: &[bool]) -> Result<Columns, Memory>
    requires { length flags.now ≡ length text.now }
    ensures { IfOk result (λ made. made ≡ unflagged flags.now text.now) }
{
    let _len = text.len();
    let units = cut_units(alloc, text.units(), flags)?;
    let chps = cut_runs(alloc, text.chps(), flags)?;
    let attachments = cut_runs(alloc, text.attachments(), flags)?;
    Ok(Columns::from_parts(units, chps, attachments))
}

/// The units that have no flag.
fn cut_units(alloc: Global, units: &[u16], flags: &[bool]) -> Result<Vec<u16>, Memory>
    requires { length flags.now ≡ length units.now }
    ensures { IfOk result (λ made. made.items ≡ unflagged flags.now units.now) }
{
    let mut made = Vec::with_capacity(alloc, units.len())?;
    for at in 0..units.len() {
        push_unflagged(units[at], flags[at], &mut made)?;
    }
    Ok(made)
}

/// Puts a unit last, where it has no flag.
fn push_unflagged(unit: u16, flag: bool, made: &mut Vec<u16>) -> Result<(), Memory>
    ensures { OnOk result (made.new.items ≡ made.old.items ++ (if flag then [] else unit ∷ [])) }
{
    if !flag {
        made.push(unit)?;
    }
    Ok(())
}

/// The values of runs that have no flag, as runs.
fn cut_runs<T: Shared>(alloc: Global, runs: &[Run<T>], flags: &[bool]) -> Result<Runs<T>, Memory>
    requires len { length flags.now ≡ total_len runs.now }
    requires few { total_len runs.now < 2 ^ 32 }
    ensures { IfOk result (λ made. made ≡ unflagged flags.now (expanded runs.now)) }
{
    let mut made = Runs::new(alloc);
    let mut begin = 0;
    for k in 0..runs.len() {
        let run = &runs[k];
        let end = begin + run.count as usize;
        let left = unflagged_count(&flags[begin..end]);
        made.add(left, run.value.copy(alloc)?)?;
        begin = end;
    }
    Ok(made)
}

/// How many have no flag.
fn unflagged_count(flags: &[bool]) -> u32
    requires { length flags.now < 2 ^ 32 }
    ensures { result ≡ count_by not flags.now }
{
    let mut count = 0;
    for k in 0..flags.len() {
        count += one_left(flags[k]);
    }
    count
}

/// One where there is no flag.
fn one_left(flag: bool) -> u32
    ensures count { result ≡ count_by not (flag ∷ []) }
    ensures few { result ≤ 1 }
{
    if flag { 0 } else { 1 }
}

/// Moves the ends of bookmarks to where what was before them ends now.
fn move_bookmarks(alloc: Global, list: &mut Bookmarks, flags: &[bool]) -> Result<(), Memory>
    requires { length flags.now < 2 ^ 32 }
    ensures { OnOk result (list.new ≡ bookmarks_left flags.now list.old) }
{
    let ends = EndsLeft::of(alloc, flags)?;
    for i in 0..list.len() {
        let moved = moved_bookmark(list.get(i), &ends)?;
        list.replace(i, moved);
    }
    list.arrange();
    Ok(())
}

/// A bookmark with its ends moved.
fn moved_bookmark(bookmark: &Bookmark, ends: &EndsLeft<'_>) -> Result<Bookmark, Memory>
    ensures { IfOk result (λ moved. moved ≡ bookmark_left ends.now bookmark.now) }
{
    let mut moved = bookmark.copy()?;
    moved.from = ends.left(bookmark.from);
    moved.to = ends.left(bookmark.to);
    Ok(moved)
}

/// Flags of items, and how many items have none before each place and in all.
#[derive(Drop)]
struct EndsLeft<'a> {
    flags: &'a [bool],
    counts: Vec<u32>,
}

impl<'a> Model for EndsLeft<'a> {
    ghost use Rattle.std.specs.Prelude.{Bool, List};
    ghost use Rattle.doc_mends.specs.Cuts.{AreEndCounts};

    ghost Value = { List Bool };

    ghost view = { λ e. e.flags.now };

    ghost invariant = { λ e. AreEndCounts e.flags.now e.counts.items };
}

impl<'a> EndsLeft<'a> {
    /// Those of these flags.
    fn of(alloc: Global, flags: &'a [bool]) -> Result<EndsLeft<'a>, Memory>
        requires { length flags.now < 2 ^ 32 }
        ensures { IfOk result (λ ends. ends ≡ flags.now) }
    {
        let counts = counts_left(alloc, flags)?;
        Ok(EndsLeft { flags, counts })
    }

    /// Where an end goes.
    fn left(&self, end: u32) -> u32
        ensures { result ≡ end_left self.now end }
    {
        self.counts[(end as usize).min(self.flags.len())]
    }
}

/// How many have no flag before each place, and in all.
fn counts_left(alloc: Global, flags: &[bool]) -> Result<Vec<u32>, Memory>
    requires { length flags.now < 2 ^ 32 }
    ensures { IfOk result (λ counts. AreEndCounts flags.now counts.items) }
{
    let mut counts = Vec::with_capacity(alloc, flags.len())?;
    let mut left = 0;
    counts.push(left)?;
    for k in 0..flags.len() {
        left += one_left(flags[k]);
        counts.push(left)?;
    }
    Ok(counts)
}
