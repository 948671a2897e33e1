//! One document after another: the main texts, notes, header texts, styles and bookmarks of two documents in one. The
//! styles of the second are behind those of the first, and what names a style names it by its new number.
#![tactic(auto)]

mod fault;
mod joining;
mod kept_maps;
mod laws;
mod marks;
mod renumbering;
mod sheets;
mod style_numbers;
mod texts;

pub use fault::JoinFault;
pub use joining::{join, join_of_columns};
pub use laws::{effects_exist, joins_break_counts_alone, joins_keep_effects};
