//! Laws of saves: a document that is saved, in full or fast, is read back. There is no code here but laws, and the
//! marks behind stories as a type.
#![tactic(auto)]

mod bounds;
mod ends;
mod laws;

pub use bounds::{
    bare_marks_share, bare_runs_share, bin_table_is_long, clx_is_short, counts_bound_streams,
    fast_saves_fit, fast_streams_fit, longer_streams_fit, longer_tables_are_short,
    named_streams_are_renewed, page_bounds_add, page_bounds_are_fewer, pages_are_few,
    reckoned_prcs_are_short, run_counts_add, saves_behind_are_few, sepx_is_short, tables_are_short,
    tables_differ_by_own_parts, text_pages_are_few, text_runs_are_counted,
};
pub use ends::Ends;
pub use laws::{
    bounded_texts_have_their_paragraphs, fast_saves_are_saves, full_saves_are_bounded,
    full_saves_are_saves, given_files_stand, given_sections_are_saved, kept_places_give,
    kept_properties_are_there, longer_plans_keep, main_splices, modified_stay_together, plans_give,
    saved_documents_are_held, saved_files_hold, splices_stay_together,
};
