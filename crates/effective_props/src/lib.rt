//! Effective properties: what the styles of a paragraph, the character style and the direct properties
//! make together, layer by layer, and the tab stops.
#![tactic(auto)]

mod effective;
mod laws;
mod layers;
mod stops;
mod tab_change;
mod tabs;
mod toggles;
mod values;

pub use effective::{ParaEffect, effective_char, effective_para};
pub use laws::{
    effective_character_is_one, effective_characters_exist, effective_map_is_one,
    effective_paragraph_is_one, effective_paragraphs_exist, last_layer_decides, stops_are_one,
    toggle_is_said_by_last_value,
};
pub use tabs::{Tab, Tabs};
pub use toggles::{TOGGLE_AS_STYLE, TOGGLE_OPPOSITE, is_byte};
