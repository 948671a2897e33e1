//! The smaller parts of the table stream: sections, fields, notes and header texts, list levels.
#![tactic(auto)]

mod bookmark_parts;
mod bookmark_print;
mod cps;
mod fault;
mod field_part;
mod laws;
mod level_part;
mod lists;
mod section_part;
mod story_parts;
mod tables;

pub use bookmark_parts::{RULE_BOOKMARKS, STTBF_HEAD_LEN, bookmarks};
pub use bookmark_print::{print_ends, print_names, print_starts};
pub use document_bookmarks::{Bookmark, Bookmarks, Name, moves_keep_form, sort_names};
pub use fault::PartFault;
pub use field_part::{LeadingFields, RULE_FIELDS, fields, leading_fields, print_fields};
pub use laws::{
    bookmarks_are_read_back, fields_are_read_back, refs_are_read_back, sections_are_read_back,
    texts_are_read_back,
};
pub use level_part::{
    CB_GRPPRL_CHPX, CB_GRPPRL_PAPX, LSTF_FLAGS, LSTF_LEN, LVLF_LEN, LevelFault, levels_len,
    list_levels,
};
pub use lists::{Cuts, Fld, Flds, NoteRef, Refs, Sed, Seds};
pub use section_part::{FC_SEPX, NO_SEPX, SED_LEN, fc_sepx_place, print_sections, sections, sepx};
pub use story_parts::{RULE_NOTES, note_refs, print_refs, print_texts, texts};
