// Texts that get an end of a paragraph behind them.
ghost use Rattle.std.specs.Prelude.{◌≡◌, ◌<◌, false, [], ◌∷◌, ◌++◌, ◌==◌, if◌then◌else◌, length, map};
ghost use Rattle.std.specs.Prelude.{Some, None, IfOk, OnOk, OnErr};
ghost use Rattle.std.specs.Option.{ForSome};
ghost use Rattle.std.specs.FinMap.{empty};
ghost use Rattle.doc_patch.specs.Changes.{changed_at};
ghost use Rattle.doc_model.specs.Document.{HasPropertyMaps};
ghost use Rattle.doc_mends.specs.declared.mends.Mend.TheVariants.{EndText};
ghost use Rattle.doc_mends.specs.Ends.{is_ended as is_ended_right, without_section as left_of_section};
ghost use Rattle.doc_mends.specs.Ends.{ending_item as item_that_ends, last_left as left_of_last, last_item};
ghost use Rattle.doc_mends.specs.Ends.{ended_text as text_ended, with_end as text_with_end, with_ends, open_text};
ghost use Rattle.doc_mends.specs.Ends.{open_texts, open_stories, is_heads as are_heads};
ghost use Rattle.doc_mends.specs.Kept.{KeepsAllButTexts};

use crate::mends::Mend;
use crate::sides::side_name;
use doc_bits::{Memory, Story};
use doc_columns::{ColumnDocument, ColumnTexts, Columns};
use plain_doc::{Item, Mark, Side};
use prop_map::PropMap;
use std::alloc::Global;
use std::mem;
use text_codes::{CELL_MARK, PARAGRAPH_MARK};

/// Puts an end of a paragraph, of style 0, behind each text that does not end with one, but for header texts of no
/// items. A section that ended with the text ends there.
pub fn end_texts(alloc: Global, document: &mut ColumnDocument) -> Result<Vec<Mend>, Memory>
    ensures document { OnOk result (document.new ≡ with_ends document.old) }
    ensures mends { IfOk result (λ mends. mends.items ≡ map EndText (open_stories document.old)) }
    ensures err { OnErr result (KeepsAllButTexts document.old document.new) }
{
    let found = found_stories(alloc, document)?;
    end_main(alloc, &mut document.main)?;
    end_each(alloc, Side::Notes, &mut document.notes)?;
    end_each(alloc, Side::Heads, &mut document.heads)?;
    let mends = end_mends(alloc, &found)?;
    Ok(mends)
}

/// The mends of these texts.
fn end_mends(alloc: Global, found: &[Story]) -> Result<Vec<Mend>, Memory>
    ensures { IfOk result (λ mends. mends.items ≡ map EndText found.now) }
{
    let mut mends = Vec::with_capacity(alloc, found.len())?;
    for k in 0..found.len() {
        mends.push(Mend::EndText(found[k]))?;
    }
    Ok(mends)
}

/// The texts that do not end so.
fn found_stories(alloc: Global, document: &ColumnDocument) -> Result<Vec<Story>, Memory>
    ensures { IfOk result (λ list. list.items ≡ open_stories document.now) }
{
    let mut list = Vec::new(alloc);
    add_where_open(false, Story::Main, &document.main, &mut list)?;
    add_open(Side::Notes, &document.notes, &mut list)?;
    add_open(Side::Heads, &document.heads, &mut list)?;
    Ok(list)
}

/// Appends those of several texts.
fn add_open(side: Side, texts: &ColumnTexts, list: &mut Vec<Story>) -> Result<(), Memory>
    ensures { OnOk result (list.new.items ≡ list.old.items ++ open_texts side texts.now) }
{
    for number in 0..texts.len() {
        let text = texts.get(number);
        add_where_open(is_heads(side), side_name(side, number), text, list)?;
    }
    Ok(())
}

/// Appends a text, where it does not end so.
fn add_where_open(
    is_head: bool,
    story: Story,
    text: &Columns,
    list: &mut Vec<Story>,
) -> Result<(), Memory>
    ensures { OnOk result (list.new.items ≡ list.old.items ++ open_text is_head story text.now) }
{
    if !is_ended(is_head, text) {
        list.push(story)?;
    }
    Ok(())
}

/// Whether they are the header texts.
fn is_heads(side: Side) -> bool
    ensures { result ≡ are_heads side }
{
    match side {
        Side::Notes => false,
        Side::Heads => true,
    }
}

/// Whether a text ends with the end of a paragraph, or is a header text of no items.
fn is_ended(is_head: bool, text: &Columns) -> bool
    ensures { result ≡ is_ended_right is_head text.now }
{
    let units = text.units();
    match units.last() {
        None => is_head,
        Some(unit) => *unit == PARAGRAPH_MARK,
    }
}

/// Ends the main text.
fn end_main(alloc: Global, main: &mut Columns) -> Result<(), Memory>
    ensures { OnOk result (main.new ≡ text_with_end false main.old) }
{
    if is_ended(false, main) {
        return Ok(());
    }
    let text = mem::replace(main, Columns::new(alloc));
    *main = with_end(alloc, text)?;
    Ok(())
}

/// Ends each of several texts.
fn end_each(alloc: Global, side: Side, texts: &mut ColumnTexts) -> Result<(), Memory>
    ensures { OnOk result (texts.new ≡ map (text_with_end (are_heads side)) texts.old) }
{
    for k in 0..texts.len() {
        end_at(alloc, is_heads(side), texts, k)?;
    }
    Ok(())
}

/// Ends one of several texts.
fn end_at(alloc: Global, is_head: bool, texts: &mut ColumnTexts, k: usize) -> Result<(), Memory>
    requires { k < length texts.old }
    ensures { OnOk result (texts.new ≡ changed_at texts.old k (text_with_end is_head)) }
{
    if is_ended(is_head, texts.get(k)) {
        return Ok(());
    }
    let text = texts.replace(k, Columns::new(alloc));
    let made = with_end(alloc, text)?;
    texts.replace(k, made);
    Ok(())
}

/// A text with the end of a paragraph behind it. A text that has no room for one is no less than memory can hold.
fn with_end(alloc: Global, text: Columns) -> Result<Columns, Memory>
    ensures { IfOk result (λ made. made ≡ text_ended text) }
{
    let len = text.len();
    if len + 1 >= 1 << 32 {
        return Err(Memory);
    }
    let last = last_of(alloc, &text)?;
    let from = len.saturating_sub(1);
    let fresh = fresh_end(alloc, last)?;
    text.splice(alloc, from, len, fresh)
}

/// The last item, where there is one.
fn last_of(alloc: Global, text: &Columns) -> Result<Option<Item>, Memory>
    ensures last { IfOk result (λ last. last ≡ last_item text.now) }
    ensures maps { IfOk result (λ last. ForSome last HasPropertyMaps) }
{
    let len = text.len();
    if len == 0 {
        return Ok(None);
    }
    let item = text.item(alloc, len - 1)?;
    Ok(Some(item))
}

/// What is in place of a last item: what is left of it, and the end of a paragraph.
fn fresh_end(alloc: Global, last: Option<Item>) -> Result<Columns, Memory>
    requires { ForSome last HasPropertyMaps }
    ensures { IfOk result (λ made. made ≡ left_of_last last ++ item_that_ends last ∷ []) }
{
    match last {
        None => Columns::new(alloc).add(ending_item(alloc, None)),
        Some(item) => split_last(alloc, item),
    }
}

/// The two items in place of a last one.
fn split_last(alloc: Global, item: Item) -> Result<Columns, Memory>
    requires { HasPropertyMaps item }
    ensures { IfOk result (λ made. made ≡ left_of_section item ∷ item_that_ends (Some item) ∷ []) }
{
    let Item {
        unit,
        fld,
        note,
        chp,
        mark,
        sect,
    } = item;
    let left = Item {
        unit,
        fld,
        note,
        chp,
        mark: cell_mark(unit, mark),
        sect: None,
    };
    let text = Columns::new(alloc).add(left)?;
    text.add(ending_item(alloc, sect))
}

/// The mark of the end of a cell or of a row, and none of another item.
fn cell_mark(unit: u16, mark: Option<Mark>) -> Option<Mark>
    ensures { result ≡ (if unit == 7 then mark else None) }
{
    if unit == CELL_MARK { mark } else { None }
}

/// The end of a paragraph of style 0, where a section may end.
fn ending_item(alloc: Global, sect: Option<PropMap>) -> Item
    ensures { result ≡ record {
      unit = 13;
      fld = None;
      note = None;
      chp = empty;
      mark = Some (record { istd = 0; pap = empty });
      sect = sect;
    } }
{
    Item {
        unit: PARAGRAPH_MARK,
        fld: None,
        note: None,
        chp: PropMap::new(alloc),
        mark: Some(Mark {
            istd: 0,
            pap: PropMap::new(alloc),
        }),
        sect,
    }
}
