//! Checks a Word document by the rules on its text and its parts, and reads them.
#![tactic(auto)]

mod bins;
mod bookmarks;
mod fault;
mod formats;
mod heads;
mod judging;
mod laws;
mod levels;
mod loading;
mod narrow;
mod notes;
mod pair_rules;
mod paragraph_ends;
mod parts;
mod sections;
mod sheets;
mod source;
mod story_ends;
mod story_fields;
mod text_cuts;
mod units;

pub use bins::check_bins;
pub use bookmarks::read_bookmarks;
pub use fault::{ReadFault, refused_container};
pub use formats::{check_characters, check_formats, check_marks};
pub use heads::{RULE_HEADS, read_heads};
pub use judging::check;
pub use laws::{first_file_fault_is_least, parts_are_one};
pub use levels::{RULE_LISTS, read_levels};
pub use loading::{FrontText, LoadedText, RULE_TABLE, RULE_WORD_DOCUMENT, load_front, load_text};
pub use notes::{Notes, read_notes};
pub use parts::{DocParts, read_parts, read_unjudged};
pub use sections::{read_sections, sepx_place, sepx_ranges};
pub use sheets::read_sheet;
pub use source::Source;
pub use story_ends::check_ends;
pub use story_fields::{StoryFields, read_fields};
pub use units::{TextUnits, read_units};
