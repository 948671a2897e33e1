//! Texts and documents by columns: units, runs of properties, and runs of what is beside.
#![tactic(auto)]

mod attached;
mod change;
mod checking;
mod collect;
mod columns;
mod copying;
mod document;
mod equality;
mod expand;
mod formed;
mod judge;
mod laws;
mod own;
mod ranges;
mod shared_text;
mod sound;
mod texts;
mod walk;
mod window;

pub use attached::Attached;
pub use checking::{CheckFault, check};
pub use columns::Columns;
pub use document::ColumnDocument;
pub use formed::columns_are_formed;
pub use laws::special_items_decide;
pub use shared_text::SharedText;
pub use sound::{all_items, is_sound};
pub use texts::ColumnTexts;
pub use walk::{Alike, Parts, Walk, alike_from, paragraph_end};
