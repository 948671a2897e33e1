// Marks of paragraphs whose style is no style of paragraphs.
ghost use Rattle.std.specs.Prelude.{◌≡◌, ◌<◌, [], ◌∷◌, ◌++◌, length, map, option_map, IfOk, OnOk, OnErr};
ghost use Rattle.std.specs.List.{filter_map};
ghost use Rattle.doc_patch.specs.Changes.{changed_at};
ghost use Rattle.std.specs.Option.{option_and_then};
ghost use Rattle.doc_mends.specs.declared.mends.Mend.TheVariants.{NormalMark};
ghost use Rattle.doc_mends.specs.NormalMarks.{is_wrong_mark as has_wrong_style, normal_mark as mark_after};
ghost use Rattle.doc_mends.specs.NormalMarks.{normal_text as text_after, wrong_mark as wrong_by_style};
ghost use Rattle.doc_mends.specs.NormalMarks.{with_normal_marks, text_wrong_marks, texts_wrong_marks, wrong_marks};
ghost use Rattle.doc_mends.specs.Attachments.{BecomesNormal};
ghost use Rattle.doc_mends.specs.Kept.{KeepsAllButTexts};

use crate::mends::{Mend, WrongMark};
use crate::sides::side_name;
use doc_bits::{Memory, Story};
use doc_columns::{Attached, ColumnDocument, ColumnTexts, Columns};
use plain_doc::{Mark, Side};
use run_lists::{Change, Cursor, Shared, seek};
use std::alloc::Global;
use std::mem;
use style_sheet::StyleSheet;

/// Gives style 0 to each mark whose style is no style of paragraphs. Its properties stay.
pub fn normal_marks(alloc: Global, document: &mut ColumnDocument) -> Result<Vec<Mend>, Memory>
    ensures document { OnOk result (document.new ≡ with_normal_marks document.old) }
    ensures mends { IfOk result (λ mends. mends.items ≡ map NormalMark (wrong_marks document.old)) }
    ensures err { OnErr result (KeepsAllButTexts document.old document.new) }
{
    let found = found_marks(alloc, document)?;
    make_where_found(alloc, document, &found)?;
    let mends = mark_mends(alloc, &found)?;
    Ok(mends)
}

/// Gives style 0 to these, where there are some.
fn make_where_found(
    alloc: Global,
    document: &mut ColumnDocument,
    found: &[WrongMark],
) -> Result<(), Memory>
    requires { found.now ≡ wrong_marks document.old }
    ensures ok { OnOk result (document.new ≡ with_normal_marks document.old) }
    ensures err { OnErr result (KeepsAllButTexts document.old document.new) }
{
    if found.is_empty() {
        return Ok(());
    }
    make_normal(alloc, document)
}

/// The mends of these marks.
fn mark_mends(alloc: Global, found: &[WrongMark]) -> Result<Vec<Mend>, Memory>
    ensures { IfOk result (λ mends. mends.items ≡ map NormalMark found.now) }
{
    let mut mends = Vec::with_capacity(alloc, found.len())?;
    for k in 0..found.len() {
        mends.push(Mend::NormalMark(found[k]))?;
    }
    Ok(mends)
}

/// The marks of a document whose style is no style of paragraphs.
fn found_marks(alloc: Global, document: &ColumnDocument) -> Result<Vec<WrongMark>, Memory>
    ensures { IfOk result (λ list. list.items ≡ wrong_marks document.now) }
{
    let mut list = Vec::new(alloc);
    let sheet = &document.sheet;
    add_text(sheet, Story::Main, &document.main, &mut list)?;
    add_texts(sheet, Side::Notes, &document.notes, &mut list)?;
    add_texts(sheet, Side::Heads, &document.heads, &mut list)?;
    Ok(list)
}

/// Appends those of several texts.
fn add_texts(
    sheet: &StyleSheet,
    side: Side,
    texts: &ColumnTexts,
    list: &mut Vec<WrongMark>,
) -> Result<(), Memory>
    ensures { OnOk result (list.new.items ≡ list.old.items ++ texts_wrong_marks sheet.now side texts.now) }
{
    for number in 0..texts.len() {
        add_text(sheet, side_name(side, number), texts.get(number), list)?;
    }
    Ok(())
}

/// Appends those of a text.
fn add_text(
    sheet: &StyleSheet,
    story: Story,
    text: &Columns,
    list: &mut Vec<WrongMark>,
) -> Result<(), Memory>
    ensures { OnOk result (list.new.items ≡ list.old.items ++ text_wrong_marks sheet.now story text.now) }
{
    let attachments = text.attachments();
    let mut cursor = Cursor::new();
    for at in 0..text.len() {
        let attached = seek(attachments, &mut cursor, at);
        add_found(wrong_in(sheet, story, at, attached), list)?;
    }
    Ok(())
}

/// Appends a mark, where there is one.
fn add_found(found: Option<WrongMark>, list: &mut Vec<WrongMark>) -> Result<(), Memory>
    ensures { OnOk result (list.new.items ≡ list.old.items ++ filter_map (λ mark. mark) (found ∷ [])) }
{
    if let Some(mark) = found {
        list.push(mark)?;
    }
    Ok(())
}

/// The mark beside a unit, where it is such a one.
fn wrong_in(sheet: &StyleSheet, story: Story, at: usize, attached: &Attached) -> Option<WrongMark>
    ensures { result ≡ option_and_then (wrong_by_style sheet.now story at) attached.now.mark }
{
    match &attached.mark {
        None => None,
        Some(mark) => wrong_mark(sheet, story, at, mark),
    }
}

/// The mark, where its style is no style of paragraphs.
fn wrong_mark(sheet: &StyleSheet, story: Story, at: usize, mark: &Mark) -> Option<WrongMark>
    ensures { result ≡ wrong_by_style sheet.now story at mark.now }
{
    if !is_wrong(sheet, mark) {
        return None;
    }
    Some(WrongMark {
        story,
        at,
        istd: mark.istd,
    })
}

/// Whether the style of a mark is no style of paragraphs.
fn is_wrong(sheet: &StyleSheet, mark: &Mark) -> bool
    ensures { result ≡ has_wrong_style sheet.now mark.now }
{
    sheet.kind_number(mark.istd) != 1
}

/// Gives style 0 to all of them.
fn make_normal(alloc: Global, document: &mut ColumnDocument) -> Result<(), Memory>
    ensures ok { OnOk result (document.new ≡ with_normal_marks document.old) }
    ensures err { OnErr result (KeepsAllButTexts document.old document.new) }
{
    let sheet = document.sheet.copy(alloc)?;
    let main = mem::replace(&mut document.main, Columns::new(alloc));
    document.main = normal_text(alloc, main, &sheet)?;
    normal_texts(alloc, &mut document.notes, &sheet)?;
    normal_texts(alloc, &mut document.heads, &sheet)?;
    Ok(())
}

/// Gives style 0 to those of several texts.
fn normal_texts(alloc: Global, texts: &mut ColumnTexts, sheet: &StyleSheet) -> Result<(), Memory>
    ensures { OnOk result (texts.new ≡ map (text_after sheet.now) texts.old) }
{
    for k in 0..texts.len() {
        normal_at(alloc, texts, sheet, k)?;
    }
    Ok(())
}

/// Gives style 0 to those of one of several texts.
fn normal_at(
    alloc: Global,
    texts: &mut ColumnTexts,
    sheet: &StyleSheet,
    k: usize,
) -> Result<(), Memory>
    requires { k < length texts.old }
    ensures { OnOk result (texts.new ≡ changed_at texts.old k (text_after sheet.now)) }
{
    let text = texts.replace(k, Columns::new(alloc));
    let made = normal_text(alloc, text, sheet)?;
    texts.replace(k, made);
    Ok(())
}

/// A text with style 0 at those of its marks.
fn normal_text(alloc: Global, text: Columns, sheet: &StyleSheet) -> Result<Columns, Memory>
    ensures { IfOk result (λ made. made ≡ text_after sheet.now text) }
{
    let len = text.len();
    let made = text.change_attachments(alloc, 0, len, &NormalMarks { sheet })?;
    Ok(made)
}

/// What is beside units, with style 0 at such marks.
#[derive(Drop)]
struct NormalMarks<'a> {
    sheet: &'a StyleSheet,
}

impl<'a> Change<Attached> for NormalMarks<'a> {
    ghost becomes = { λ by before after. BecomesNormal by.sheet.now before after };

    fn change(&self, alloc: Global, value: &Attached) -> Result<Attached, Memory> {
        let made = normal_attached(alloc, value, self.sheet)?;
        Ok(made)
    }
}

/// What is beside a unit, with style 0 at such a mark.
fn normal_attached(
    alloc: Global,
    attached: &Attached,
    sheet: &StyleSheet,
) -> Result<Attached, Memory>
    ensures { IfOk result (BecomesNormal sheet.now attached.now) }
{
    let mut made = attached.copy(alloc)?;
    made.mark = normal_end(alloc, &attached.mark, sheet)?;
    Ok(made)
}

/// A mark with style 0 where it is such a one.
fn normal_end(
    alloc: Global,
    mark: &Option<Mark>,
    sheet: &StyleSheet,
) -> Result<Option<Mark>, Memory>
    ensures { IfOk result (λ made. made ≡ option_map (mark_after sheet.now) mark.now) }
{
    match mark {
        None => Ok(None),
        Some(mark) => Ok(Some(normal_mark(alloc, mark, sheet)?)),
    }
}

/// The mark with style 0, where its style is no style of paragraphs.
fn normal_mark(alloc: Global, mark: &Mark, sheet: &StyleSheet) -> Result<Mark, Memory>
    ensures { IfOk result (λ made. made ≡ mark_after sheet.now mark.now) }
{
    let istd = if is_wrong(sheet, mark) { 0 } else { mark.istd };
    Ok(Mark {
        istd,
        pap: mark.pap.copy(alloc)?,
    })
}
