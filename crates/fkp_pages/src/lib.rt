//! Formatted disk pages: the properties of runs of characters and of paragraphs by byte place, and
//! the bin tables that name the pages.
#![tactic(auto)]

mod bin_table;
mod counting;
mod kind;
mod laws;
mod lists;
mod packing;
mod page_laws;
mod page_writer;
mod page_writers;
mod reading;
mod runs;
mod writable;
mod written;

pub use bin_table::{BinRange, PN_BITS, PN_LEN, bin_at, bin_range, range_count, write_bin};
pub use counting::{chpx_page_count, papx_page_count};
pub use kind::{COUNT_AT, FIRST_PAGE, PAGE_LEN, PageKind, RunAnswer};
pub use laws::{
    bin_page_is_one, list_at_is_one, list_is_spelled, run_answer_is_one, spelled_list_is_read,
};
pub use lists::{Bin, Bins, ChpRuns, PapRuns, Run, Starts};
pub use packing::Pages;
pub use page_laws::{
    lists_have_properties, longer_tables_name_both, packing_is_one, pages_are_one, pages_are_whole,
    pages_stand_in_a_row, places_have_lists, row_is_printable, run_fits_alone, runs_are_found,
    runs_have_pages,
};
pub use page_writers::{write_chpx_pages, write_papx_pages};
pub use reading::{
    Met, Stretch, answer_of, chpx_at, chpx_stretch, entry_at, has_run_count, next_stretch, papx_at,
    papx_stretch,
};
pub use runs::RunCursor;
pub use writable::{are_chp_runs, are_pap_runs, groups_of_runs};
pub use written::ISTD_LEN;
