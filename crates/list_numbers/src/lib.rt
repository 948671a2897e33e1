//! The numbers of list paragraphs: which list and level each belongs to, how far its list has counted, and the text
//! that its level makes of that; the lines of an outline; and what a page needs to know of each main paragraph.
#![tactic(auto)]

mod counters;
mod document_lists;
mod document_numbers;
mod first_lists;
mod label_text;
mod labels;
mod laws;
mod level;
mod level_font;
mod level_text;
mod levels;
mod list_format;
mod list_formats;
mod list_place;
mod mark_values;
mod number_kind;
mod numbering;
mod numbers_list;
mod numbers_of_places;
mod numeral;
mod outline;
mod outline_line;
mod paragraph_values;
mod paragraphs;
mod reading;
mod roman;
mod style_values;

pub use document_numbers::{numbers, numbers_of_columns};
pub use laws::{
    numbers_are_one, numbers_exist, outline_lines_are_one, outline_lines_exist,
    paragraph_values_are_one, paragraph_values_exist, roman_numerals_are_read_back,
};
pub use numbers_list::Numbers;
pub use numeral::number_text;
pub use outline::{outline_lines, outline_lines_of_columns};
pub use paragraph_values::{
    ListLabel, ParagraphValues, ParagraphValuesList, paragraph_values_of_columns,
};
