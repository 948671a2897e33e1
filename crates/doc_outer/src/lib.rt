//! The world outside: files by name, a byte sink, and both in memory.
#![tactic(auto)]

mod file_put;
mod host_shelf;
mod host_sink;
mod mem_shelf;
mod mem_sink;
mod out_block;
mod plan;
mod shelf;
mod sink;
mod whole;

pub use host_shelf::HostShelf;
pub use host_sink::HostSink;
pub use mem_shelf::{MemShelf, copy_part};
pub use mem_sink::MemSink;
pub use out_block::OutBlock;
pub use shelf::{PutFault, Shelf, ShelfFault};
pub use sink::{Sink, SinkFailed, write_all};
pub use whole::{MAX_FILE_LEN, ReadFail, read_whole};
