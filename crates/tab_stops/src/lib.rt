//! Changes of tab stops that delete none: where their codes are in the pages of paragraphs, in styles and in Prcs.
#![tactic(auto)]

mod lists;
mod pages;
mod prcs;
mod sheets;

pub use pages::page_stops;
pub use prcs::push_prc_stops;
pub use sheets::push_sheet_stops;
