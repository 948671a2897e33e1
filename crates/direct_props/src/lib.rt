//! Direct properties: what the pages of a file and the modifiers of its pieces give to each unit and
//! to each paragraph mark, and the rules on the pages.
#![tactic(auto)]

mod characters;
mod grpprl_cache;
mod laws;
mod lists;
mod marks;
mod pages;
mod places;
mod reader;
mod rules;

pub use laws::{
    direct_character_is_one, direct_mark_is_one, first_page_fault_is_least, right_lists_are_valid,
    right_places_have_lists, right_places_have_properties, right_places_hold,
};
pub use marks::{DirectMark, read_mark};
pub use places::{PlaceRow, Places};
pub use reader::PlaceReader;
pub use rules::{PageFault, check_each, check_places, check_rows};
