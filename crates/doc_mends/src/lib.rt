//! Documents changed by named mends.
#![tactic(auto)]

mod bases;
mod batches;
mod cutting;
mod ending;
mod judging;
mod laws;
mod lines;
mod marking;
mod mending;
mod mends;
mod plain_items;
mod rows;
mod sides;
mod striking;
mod struck_runs;
mod tables;

pub use bases::drop_bases;
pub use cutting::cut_references;
pub use ending::end_texts;
pub use laws::{
    mended_rows_are_whole, mends_are_one, mends_keep_bookmarks, sound_has_no_mends, units_stay,
};
pub use lines::push_mends;
pub use marking::normal_marks;
pub use mending::mend;
pub use mends::{BrokenRow, DeletedRange, MadeNote, Mend, Mended, NoteStory, RowMark, WrongMark};
pub use sides::side_name;
pub use striking::strike_deleted;
pub use tables::plain_rows;
