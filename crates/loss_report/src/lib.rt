//! What of a file this profile has no meaning for, named feature by feature, and the lines that say so.
#![tactic(auto)]

mod feature_lines;
mod lines;
mod reporting;

pub use feature_lines::story_word;
pub use lines::LossLines;
pub use reporting::report;
