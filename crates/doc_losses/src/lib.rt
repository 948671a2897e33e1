//! What of a file is left out by its bookmarks and its style sheet, feature by feature, and its references to stories that
//! are left out.
#![tactic(auto)]

mod bookmarks;
mod bytes;
mod cps;
mod finding;
mod losses;
mod sheet;

pub use cps::{COMMENT_MARK, Marks};
pub use finding::{references, text_marks};
pub use losses::doc_losses;
