//! Compound files of version 3: their sector chains, their directory and their streams.
#![tactic(auto)]

mod container;
mod gather;
mod laws;
mod layout;
mod list;
mod outer;
mod parts;
mod root_stream;
mod stream_names;

pub use cfb_sectors::CfbFault;
pub use container::Container;
pub use laws::{
    accepted_is_outer, contents_are_one, entry_order_is_name_order, first_is_least, hold_or_first,
    storages_are_one,
};
pub use layout::{Layout, layout_of};
pub use list::{Streams, name_before};
pub use outer::OuterContainer;
pub use stream_names::{TABLE_0, TABLE_1, WORD_DOCUMENT, equal_names, table_name, word_document};
