//! Formatted disk pages in whose lists the codes that are not read are skipped.
#![tactic(auto)]

mod laws;
mod names;
mod pages;
mod places;
mod skips;

pub use laws::{
    copies_answer, copies_answer_alone, list_copies_act_the_same, pages_are_skipped_alone,
    skipped_pages_keep_lists,
};
pub use names::named_pages;
pub use pages::skip_pages;
pub use places::has_lists_apart;
pub use skips::skip_page;
