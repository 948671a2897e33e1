// Marks that split a paragraph, and what ends a section.
ghost use Rattle.std.specs.Prelude.{◌≡◌, ◌≤◌, [], ◌∷◌, length, IfOk, not};
ghost use Rattle.std.specs.FinMap.{retain_keys};
ghost use Rattle.prop_map.specs.Formed.{IsPropertyMap, StaysFormed, paragraph_groups, section_groups};
ghost use Rattle.doc_patch.specs.Places.{paragraph_mark_at as mark_there, section_around as section_there};
ghost use Rattle.edit_ops.specs.Fresh.{is_row_code as of_table, split_mark as mark_split, split_item as item_split};
ghost use Rattle.edit_ops.specs.Fresh.{section_item as item_of_section, properties_over as over};

use crate::fresh::{base_properties, mark_item};
use doc_bits::Memory;
use doc_columns::Columns;
use doc_patch::{mark_at, properties_over, section_at};
use plain_doc::Mark;
use prop_map::PropMap;
use sprm_table::{Code, TABLE_GROUP, group};
use std::alloc::Global;
use text_codes::{PARAGRAPH_MARK, SECTION_MARK};

/// [MS-DOC] sprmPFTtp: the mark ends a row.
const SPRM_P_F_TTP: u16 = 0x2417;

/// Whether no paragraph that is split off keeps the code.
fn is_table_code(code: u16) -> bool
    ensures { result ≡ of_table code }
{
    code == SPRM_P_F_TTP || group(Code(code)) == TABLE_GROUP
}

/// The properties without codes of tables.
fn outside_tables(alloc: Global, pap: &PropMap) -> Result<PropMap, Memory>
    ensures map { IfOk result (λ made. made ≡ retain_keys pap.now (λ code. not (of_table code))) }
    ensures formed { IfOk result (λ made. StaysFormed paragraph_groups pap.now made) }
{
    let mut codes = Vec::new(alloc);
    let mut left = pap.entries();
    while let Some((code, _)) = left.next() {
        if is_table_code(code.0) {
            codes.push(code)?;
        }
    }
    let made = pap.without(alloc, &codes)?;
    Ok(made)
}

/// The mark of a paragraph that is split off the one that holds the place.
fn split_mark(alloc: Global, text: &Columns, at: usize) -> Result<Mark, Memory>
    requires within { at ≤ length text.now }
    ensures mark { IfOk result (λ made. made ≡ mark_split (mark_there text.now at)) }
    ensures formed { IfOk result (λ made. IsPropertyMap paragraph_groups made.pap) }
{
    let _len = text.len();
    match mark_at(text, at) {
        None => Ok(Mark {
            istd: 0,
            pap: PropMap::new(alloc),
        }),
        Some(mark) => Ok(Mark {
            istd: mark.istd,
            pap: outside_tables(alloc, &mark.pap)?,
        }),
    }
}

/// The paragraph mark that splits the paragraph that holds the place, as a text of one item.
pub(crate) fn split_item(alloc: Global, text: &Columns, at: usize) -> Result<Columns, Memory>
    requires { at ≤ length text.now }
    ensures { IfOk result (λ made. made ≡ item_split text.now at ∷ []) }
{
    let base = base_properties(alloc, text, at)?;
    let mark = split_mark(alloc, text, at)?;
    let item = mark_item(alloc, &base, PARAGRAPH_MARK, mark)?;
    let made = Columns::new(alloc).add(item)?;
    Ok(made)
}

/// The properties of a new section before the place: those of the section that holds it, changed.
fn new_section(alloc: Global, main: &Columns, at: usize, set: &PropMap) -> Result<PropMap, Memory>
    requires within { at ≤ length main.now }
    requires set { IsPropertyMap section_groups set.now }
    ensures map { IfOk result (λ made. made ≡ over set.now (section_there main.now at)) }
    ensures formed { IfOk result (IsPropertyMap section_groups) }
{
    let _len = main.len();
    match section_at(main, at) {
        None => {
            let made = set.copy(alloc)?;
            Ok(made)
        }
        Some(base) => {
            let made = properties_over(alloc, set, base)?;
            Ok(made)
        }
    }
}

/// The mark that ends a new section before the place, as a text of one item.
pub(crate) fn section_item(
    alloc: Global,
    main: &Columns,
    at: usize,
    set: &PropMap,
) -> Result<Columns, Memory>
    requires within { at ≤ length main.now }
    requires set { IsPropertyMap section_groups set.now }
    ensures { IfOk result (λ made. made ≡ item_of_section main.now at set.now ∷ []) }
{
    let base = base_properties(alloc, main, at)?;
    let mark = split_mark(alloc, main, at)?;
    let mut item = mark_item(alloc, &base, SECTION_MARK, mark)?;
    item.sect = Some(new_section(alloc, main, at, set)?);
    let made = Columns::new(alloc).add(item)?;
    Ok(made)
}
