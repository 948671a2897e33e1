//! The plain document: texts of items, a style sheet, and what is carried along unread.
#![tactic(auto)]

mod blank_parts;
mod fields;
mod judge;
mod laws;
mod rows;
mod rules_counts;
mod rules_items;
mod rules_sheet;
mod rules_texts;
mod text_walk;

pub use blank_parts::blank;
pub use doc_model::{
    Carried, Document, Item, Items, Mark, NoteKind, Texts, blank_is_formed, copy_mark,
    copy_section, documents_are_formed, equal, has_field_byte, has_same_properties,
    has_style_number, is_byte, is_word, paragraph_end, same_mark, same_section,
};
pub use fields::MAX_OPEN;
pub use judge::{DocFault, MAX_BOOKMARKS, RULE_ITEMS, RULE_SETTINGS, RULE_STD, check, check_with};
pub use laws::{
    equal_properties_are_same, first_doc_fault_is_least, items_are_cut_into_stretches,
    sound_documents_are_valid, sound_sheet_is_writable, stretches_are_one,
};
pub use rows::value_at;
pub use rules_counts::{Counts, HEADERS_PER_SECTION, SEPARATORS, all_items, notes_in, sections_in};
pub use rules_items::MAX_CHPX_GRPPRL;
pub use rules_sheet::is_valid_sheet;
pub use rules_texts::{ItemRule, Side, TextRule, is_head};
pub use text_walk::TextWalk;
