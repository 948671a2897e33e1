//! The piece table of a document: read from the Clx, checked by rules 27 to 32, and written again.
#![tactic(auto)]

mod changes;
mod collect;
mod cutting;
mod fault;
mod judge;
mod laws;
mod modifier_table;
mod parts;
mod pcd;
mod pieces;
mod prc_lists;
mod prcs;
mod printing;
mod reading;
mod renewal;
mod renumber;
mod walk;

pub use fault::ClxFault;
pub use laws::{
    clx_is_read_back, clx_pieces_are_one, first_clx_fault_is_least, flat_length_is_total,
};
pub use parts::{MAX_GRPPRL, PRC_HEAD, prc_front};
pub use pcd::{FcCompressed, Prm};
pub use pieces::{Piece, PieceList, Spot, TextBounds};
pub use prcs::MAX_PAP;
pub use reading::read_clx;
pub use walk::PieceWalk;
