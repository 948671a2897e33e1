//! Properties: finite maps from sprm codes to values, what a list of sprms makes of them, and the
//! modifiers of pieces.
#![tactic(auto)]

mod acting;
mod block;
mod codes;
mod draft;
mod laws;
mod map;
mod modifiers;
mod overlay;
mod printing;
mod values;

pub use acting::{Acted, act};
pub use block::Entries;
pub use codes::{CHARACTER_GROUPS, PARAGRAPH_GROUPS, PRC_GROUPS, SECTION_GROUPS, may_hold};
pub use draft::Draft;
pub use laws::{
    acting_is_one, composed_is_one, lists_act_in_turn, lists_make_maps, modifier_is_one,
    over_is_overlay, properties_stay_formed, said_code_by_code,
};
pub use map::PropMap;
pub use modifiers::Modifier;
