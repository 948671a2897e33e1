// Items of a row that becomes paragraphs.
ghost use Rattle.std.specs.Prelude.{◌≡◌, ◌<◌, [], ◌∷◌, ◌++◌, if◌then◌else◌, length, map, option_map, slice_get};
ghost use Rattle.std.specs.Prelude.{Some, IfOk, OnOk};
ghost use Rattle.std.specs.Option.{ForSome};
ghost use Rattle.doc_model.specs.Document.{HasPropertyMaps};
ghost use Rattle.doc_mends.specs.PlainRows.{is_table_code as is_of_tables, table_codes as codes_of_tables};
ghost use Rattle.doc_mends.specs.PlainRows.{plain_pap as pap_left, plain_mark as mark_left, plain_unit as unit_left};
ghost use Rattle.doc_mends.specs.PlainRows.{plain_item as item_left};

use doc_bits::Memory;
use plain_doc::{Item, Items, Mark};
use prop_map::PropMap;
use sprm_table::{Code, TABLE_GROUP, group};
use std::alloc::Global;
use std::marker::Model;
use text_codes::{CELL_MARK, PARAGRAPH_MARK};

/// Properties of a mark, and what is left of them.
#[derive(Drop)]
struct PlainPair {
    before: PropMap,
    after: PropMap,
}

/// The properties that were met last, and what is left of them: marks next to one another often have the same.
#[derive(Drop)]
pub(crate) struct PlainMaps {
    last: Option<PlainPair>,
}

impl Model for PlainMaps {
    ghost use Rattle.std.specs.Prelude.{◌≡◌, Bool, is_some};
    ghost use Rattle.std.specs.Option.{ForSome};
    ghost use Rattle.doc_mends.specs.PlainRows.{plain_pap};

    ghost Value = { Bool };

    ghost view = { λ m. is_some m.last };

    ghost invariant = { λ m. ForSome m.last (λ pair. pair.after ≡ plain_pap pair.before) };
}

impl PlainMaps {
    /// None was met.
    pub(crate) fn new() -> PlainMaps {
        PlainMaps { last: None }
    }

    /// What is left of properties.
    fn plain(&mut self, alloc: Global, pap: &PropMap) -> Result<PropMap, Memory>
        ensures { IfOk result (λ made. made ≡ pap_left pap.now) }
    {
        if let Some(made) = self.known(alloc, pap)? {
            return Ok(made);
        }
        let after = plain_pap(alloc, pap)?;
        let before = pap.copy(alloc)?;
        let made = after.copy(alloc)?;
        self.last = Some(PlainPair { before, after });
        Ok(made)
    }

    /// What is left of properties, where they are those that were met last.
    fn known(&self, alloc: Global, pap: &PropMap) -> Result<Option<PropMap>, Memory>
        ensures { IfOk result (λ known. ForSome known (λ made. made ≡ pap_left pap.now)) }
    {
        match &self.last {
            None => Ok(None),
            Some(pair) => Ok(pair.left_of(alloc, pap)?),
        }
    }
}

impl PlainPair {
    /// What is left of properties, where they are these.
    fn left_of(&self, alloc: Global, pap: &PropMap) -> Result<Option<PropMap>, Memory>
        requires { self.now.after ≡ pap_left self.now.before }
        ensures { IfOk result (λ known. ForSome known (λ made. made ≡ pap_left pap.now)) }
    {
        if !self.before.equal(pap) {
            return Ok(None);
        }
        let made = self.after.copy(alloc)?;
        Ok(Some(made))
    }
}

/// What an item of a text becomes in such a row.
pub(crate) fn item_in(
    alloc: Global,
    items: &Items,
    at: usize,
    maps: &mut PlainMaps,
) -> Result<Item, Memory>
    requires { at < length items.now }
    ensures item { IfOk result (λ made. slice_get (map item_left items.now) at ≡ Some made) }
    ensures maps { IfOk result (λ made. HasPropertyMaps made) }
{
    let _len = items.len();
    let made = plain_item(alloc, items.get(at), maps)?;
    Ok(made)
}

/// What an item becomes.
fn plain_item(alloc: Global, item: &Item, maps: &mut PlainMaps) -> Result<Item, Memory>
    ensures { IfOk result (λ made. made ≡ item_left item.now) }
{
    let mut made = item.copy(alloc)?;
    made.unit = plain_unit(item.unit);
    made.mark = plain_end(alloc, &item.mark, maps)?;
    Ok(made)
}

/// What its unit becomes: the end of a cell or of a row that of a paragraph.
fn plain_unit(unit: u16) -> u16
    ensures { result ≡ unit_left unit }
{
    if unit == CELL_MARK {
        PARAGRAPH_MARK
    } else {
        unit
    }
}

/// What its mark becomes, where it has one.
fn plain_end(
    alloc: Global,
    mark: &Option<Mark>,
    maps: &mut PlainMaps,
) -> Result<Option<Mark>, Memory>
    ensures { IfOk result (λ made. made ≡ option_map mark_left mark.now) }
{
    match mark {
        None => Ok(None),
        Some(mark) => Ok(Some(plain_mark(alloc, mark, maps)?)),
    }
}

/// The mark without properties of tables.
fn plain_mark(alloc: Global, mark: &Mark, maps: &mut PlainMaps) -> Result<Mark, Memory>
    ensures { IfOk result (λ made. made ≡ mark_left mark.now) }
{
    Ok(Mark {
        istd: mark.istd,
        pap: maps.plain(alloc, &mark.pap)?,
    })
}

/// The map without properties of tables.
fn plain_pap(alloc: Global, pap: &PropMap) -> Result<PropMap, Memory>
    ensures { IfOk result (λ made. made ≡ pap_left pap.now) }
{
    let codes = table_codes(alloc, pap)?;
    let made = pap.without(alloc, &codes)?;
    Ok(made)
}

/// The codes of a map that are properties of tables.
fn table_codes(alloc: Global, pap: &PropMap) -> Result<Vec<Code>, Memory>
    ensures { IfOk result (λ codes. map (λ code. code.0) codes.items ≡ codes_of_tables pap.now) }
{
    let mut codes = Vec::new(alloc);
    let mut left = pap.entries();
    while let Some(entry) = left.next() {
        add_code(entry.0, &mut codes)?;
    }
    Ok(codes)
}

/// Appends a code, where it is one of tables.
fn add_code(code: Code, codes: &mut Vec<Code>) -> Result<(), Memory>
    ensures { OnOk result (map (λ c. c.0) codes.new.items
        ≡ map (λ c. c.0) codes.old.items ++ (if is_of_tables code.0 then code.0 ∷ [] else [])) }
{
    if is_table_code(code) {
        codes.push(code)?;
    }
    Ok(())
}

/// Whether a code is of tables, or says of a paragraph that it is in one.
fn is_table_code(code: Code) -> bool
    ensures { result ≡ is_of_tables code.0 }
{
    group(code) == TABLE_GROUP
        || matches!(code.0, 0x2416 | 0x2417 | 0x244B | 0x244C | 0x6649 | 0x664A)
}
