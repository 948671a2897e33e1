//! What of the lists, the text and the style sheet of a file this profile has no meaning for, by name, and the lines
//! that say so.
#![tactic(auto)]

mod features;
mod lines;

pub use features::{ListKind, Reference, TextFeature};
pub use lines::{push_feature, push_features, reference_text, story_place};
