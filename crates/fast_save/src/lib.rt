//! Full saves and sessions: a document that is saved in full is read back, and its file is one; a session is a document
//! that is edited beside the pieces of its text.
#![tactic(auto)]

mod by_items;
mod fast;
mod fast_parts;
mod full_parts;
mod laws;
mod ledgers;
mod parts;
mod reckoned;
mod session;
mod stories;
mod written;

pub use cfb_in_place::{Change, appended};
pub use fast::FastFault;
pub use laws::{
    edits_add_little, equal_files_have_one_save, full_saves_are_canonical, full_saves_are_fixed,
    full_saves_are_read, full_saves_hold,
};
pub use ledgers::{Counts, Ledgers};
pub use session::Session;
