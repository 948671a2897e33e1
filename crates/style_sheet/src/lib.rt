//! The style sheet: its styles, their chains of bases, and the STSH that spells it.
#![tactic(auto)]

mod bases;
mod chains;
mod changes;
mod counted;
mod decoding;
mod definition;
mod fault;
mod laws;
mod printing;
mod reading;
mod sheet;
mod slots;
mod styles;
mod upxes;

pub use chains::Chain;
pub use changes::copy_other_kind;
pub use counted::next_place;
pub use definition::{first_upx, kind_number};
pub use fault::StyleFault;
pub use laws::{
    base_chain_is_one, parts_hold_sheets, sheet_is_one, sheet_is_read_back,
    unbroken_bases_are_sound,
};
pub use reading::{RULE_STYLE_LISTS, RULE_STYLES, first_slot, has_stshif, wrong_slot};
pub use sheet::StyleSheet;
pub use styles::{Kind, Style};
pub use upxes::UpxList;
