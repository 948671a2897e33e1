// One walk over a text, which finds whether a rule on texts is broken, and not which.
ghost use Rattle.std.specs.Prelude.{◌≡◌, ◌+◌, ◌^◌, ◌<◌, ◌≤◌, [], IsTrue, IfSome};
ghost use Rattle.doc_model.specs.Document.{HasPropertyMaps};
ghost use Rattle.plain_doc.specs.TextWalk.{PassesItem, EndsWalk};

use crate::Item;
use crate::fields::OpenFields;
use crate::rows::{fits_row, next_cells};
use crate::rules_counts::Counts;
use crate::rules_items::{has_short_properties, is_placed_right};
use crate::rules_texts::has_paragraph_style;
use doc_bits::Where;
use style_sheet::StyleSheet;

/// What a walk carries: the open fields, the cells of the open row, the notes and sections so far.
#[derive(Drop)]
pub struct TextWalk {
    fields: OpenFields,
    cells: usize,
    notes: usize,
    sections: usize,
}

impl TextWalk {
    /// What is carried before the first item.
    pub fn new() -> TextWalk
        ensures { result ≡ record { fields = []; cells = 0; notes = 0; sections = 0 } }
    {
        TextWalk {
            fields: OpenFields::new(),
            cells: 0,
            notes: 0,
            sections: 0,
        }
    }

    /// Goes past an item, where it breaks no rule.
    #[inline(never)]
    pub fn pass_marked(
        &mut self,
        sheet: &StyleSheet,
        part: Where,
        len: usize,
        place: usize,
        item: &Item,
    ) -> bool
        requires place { place < 2 ^ 32 }
        requires few { (self.old.cells ≤ place) × ((self.old.notes ≤ place) × (self.old.sections ≤ place)) }
        requires maps { HasPropertyMaps item.now }
        ensures { IsTrue result → PassesItem sheet.now part len place item.now self.old self.new }
    {
        let right = is_placed_right(part, len, place, item)
            && has_paragraph_style(sheet, item)
            && has_short_properties(item)
            && fits_row(self.cells, item);
        if !right {
            return false;
        }
        self.cells = next_cells(self.cells, item);
        self.notes += usize::from(item.note.is_some());
        self.sections += usize::from(item.sect.is_some());
        self.fields.pass_item(item)
    }

    /// The counts of the text whose items are passed. There are none where a field or a row is open.
    pub fn counts(&self) -> Option<Counts>
        ensures { IfSome result (EndsWalk self.now) }
    {
        if self.cells == 0 && self.fields.is_empty() {
            Some(Counts {
                notes: self.notes,
                sections: self.sections,
            })
        } else {
            None
        }
    }
}
