//! Text units of Word: the bytes of compressed text, the units that end a paragraph, and the text that is shown.
#![tactic(auto)]

mod compressed;
mod digits;
mod gathering;
mod halves;
mod paragraph;
mod showing;
mod special;

pub use compressed::unit_of_byte;
pub use digits::{hex_digit, push_byte, push_bytes, push_word};
pub use halves::{is_high, pair};
pub use paragraph::{CELL_MARK, PARAGRAPH_MARK, SECTION_MARK, bare_len, ends_paragraph};
pub use showing::{ShownText, show_units};
pub use special::{FIELD_BEGIN, FIELD_END, FIELD_SEPARATOR, PICTURE, REPLACEMENT, SPACE};
