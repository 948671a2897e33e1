// What a page needs to know of each main paragraph of a document.
ghost use Rattle.std.specs.Prelude.{◌≡◌, ◌++◌, ◌∷◌, [], length, slice_get, option_map, IfOk, OnOk};
ghost use Rattle.plain_doc.specs.Sound.{IsSound};
ghost use Rattle.list_numbers.specs.ParagraphValues.{AreParagraphValuesOf, is_bool8_set, values_with};

use crate::document_lists::DocumentLists;
use crate::labels::values_at;
use crate::mark_values::MarkValues;
use crate::outline_line::outline_level;
use crate::paragraphs::document_values;
use doc_bits::{Memory, Units};
use doc_columns::ColumnDocument;
use std::alloc::Global;
use std::marker::Model;
use symbol_fonts::SymbolFonts;

/// The label of a list paragraph.
#[derive(Drop)]
pub struct ListLabel {
    /// The level in the list, from 0 to 8.
    pub level: u8,
    /// Whether the level is a bullet, and no number.
    pub is_bullet: bool,
    /// The first 64 units of the number or bullet, at least one.
    pub units: Units,
}

/// What a page needs to know of a paragraph.
#[derive(Drop)]
pub struct ParagraphValues {
    /// The level in the outline, from 0 to 8, of a heading.
    pub outline: Option<u8>,
    /// Whether a page begins with the paragraph.
    pub breaks_page: bool,
    /// Whether the paragraph is written from right to left.
    pub right_to_left: bool,
    /// The label, where the paragraph is of a list that shows one.
    pub label: Option<ListLabel>,
}

impl ParagraphValues {
    /// The values in effect of a mark, with the label of its paragraph.
    pub(crate) fn new(values: MarkValues, label: Option<ListLabel>) -> ParagraphValues
        ensures { result ≡ values_with values label }
    {
        ParagraphValues {
            outline: outline_level(values.outline),
            breaks_page: is_set(values.breaks_page),
            right_to_left: is_set(values.right_to_left),
            label,
        }
    }
}

/// Whether a [MS-DOC] Bool8 is there and set.
fn is_set(byte: Option<u8>) -> bool
    ensures { result ≡ is_bool8_set byte }
{
    match byte {
        None => false,
        Some(byte) => byte != 0,
    }
}

/// The values of paragraphs, in their order.
#[derive(Drop)]
pub struct ParagraphValuesList {
    items: Vec<ParagraphValues>,
}

impl Model for ParagraphValuesList {
    ghost use Rattle.std.specs.Prelude.{List};
    ghost use Rattle.std.specs.Coded.{coded_list};
    ghost use Rattle.list_numbers.specs.declared.paragraph_values.ParagraphValues.{ParagraphValues};
    ghost use Rattle.list_numbers.specs.contracts.paragraph_values.ParagraphValues as values;

    ghost Value = { List ParagraphValues };

    ghost coded = { coded_list values.the_row.coded };

    ghost view = { λ l. l.items.items };
}

impl ParagraphValuesList {
    /// Of no paragraph.
    pub fn new(alloc: Global) -> ParagraphValuesList
        ensures { result ≡ [] }
    {
        ParagraphValuesList {
            items: Vec::new(alloc),
        }
    }

    /// How many paragraphs there are.
    pub fn len(&self) -> usize
        ensures { result ≡ length self.now }
    {
        self.items.len()
    }

    /// The values of the paragraph with this number, where it is there.
    pub fn get(&self, i: usize) -> Option<&ParagraphValues>
        ensures { option_map (λ values. values.now) result ≡ slice_get self.now i }
    {
        if i < self.items.len() {
            Some(&self.items[i])
        } else {
            None
        }
    }

    pub(crate) fn add(&mut self, values: ParagraphValues) -> Result<(), Memory>
        ensures { OnOk result (self.new ≡ self.old ++ values ∷ []) }
    {
        self.items.push(values)?;
        Ok(())
    }
}

/// What a page needs to know of the main paragraphs of a sound document, in their order.
pub fn paragraph_values_of_columns(
    alloc: Global,
    document: &ColumnDocument,
) -> Result<ParagraphValuesList, Memory>
    requires { IsSound document.now }
    ensures { IfOk result (AreParagraphValuesOf document.now) }
{
    let values = document_values(alloc, document)?;
    let lists = DocumentLists::of(alloc, &document.carried)?;
    let places = lists.places_of(alloc, &values)?;
    let fonts = SymbolFonts::of(document.carried.fonts.as_slice());
    let made = values_at(alloc, fonts, &lists.lists, &places, &values)?;
    Ok(made)
}
