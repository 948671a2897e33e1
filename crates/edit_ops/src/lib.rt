//! Edits of a document: what a command changes, whether it may, and the document after it.
#![tactic(auto)]

mod applying;
mod bookmarks;
mod codes;
mod facts;
mod faults;
mod fresh;
mod judging;
mod laws;
mod marks;
mod planning;
mod ranges;
mod rows;

pub use applying::{Edit, apply_plain, edit_of, test};
pub use codes::has_valid_codes;
pub use doc_patch::{Change, Changes};
pub use edit_guards::Facts;
pub use edit_script::{Cells, Command, Script, ScriptFault, read_script};
pub use faults::EditFault;
pub use laws::{
    changes_are_few, changes_can_be_made, edit_has_one_outcome, edits_keep_bookmarks,
    formatting_moves_no_items, runs_are_few,
};
pub use planning::changes_of;
pub use ranges::is_in_range;
