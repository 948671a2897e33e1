//! The picture of a character, in the bytes of the stream `Data`: its kind, and where the bytes of its file are.
#![tactic(auto)]

mod kind;
mod laws;
mod picf;
mod picture;
mod record;

pub use kind::PictureKind;
pub use laws::inline_picture_is_one;
pub use picture::{PictureFile, picture_at};
