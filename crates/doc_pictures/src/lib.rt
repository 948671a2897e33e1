//! The pictures of a document: the files in the stream `Data` that its characters name, and how they are called.
#![tactic(auto)]

mod album;
mod files;
mod laws;
mod names;
mod pictures;
mod places;

pub use album::{Album, AlbumFault, write_pictures};
pub use files::{Images, name_at};
pub use laws::{pictures_are_one, pictures_are_short};
pub use names::{PictureName, picture_path, suffix_of};
pub use pictures::{Picture, Pictures, pictures_of};
