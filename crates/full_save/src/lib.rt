//! Full saves: a document laid out as the streams of a file, and the file itself.
#![tactic(auto)]

mod fault;
mod lengths;
mod lists;
mod made_parts;
mod mark_parts;
mod measures;
mod pages;
mod runs;
mod saving;
mod sections;
mod streams;
mod table_parts;
mod table_text;
mod text;
mod word_document;

pub use fault::SaveFault;
pub use made_parts::write_table;
pub use pages::{append_chpx_pages, append_papx_pages, append_units};
pub use runs::{UNIT_LEN, character_runs};
pub use saving::{
    full, full_of_columns, sectors, sectors_of_columns, table_len, table_len_of_columns,
};
pub use sections::push_counted;
pub use table_parts::TableParts;
pub use table_text::TableText;
pub use text::TEXT_START;
pub use word_document::{append_text, pages_for};
