// The console's lines: their words, and the numbers and bytes that a word stands for. A line is its bytes without the line's end; words
// are what stands between single spaces, so that two spaces in a row have an empty word between.
#![tactic(auto)]

mod form;
mod line;
mod value;

pub use form::{are_numbers, byte, is_form, long, place_of, short, year};
pub use line::{is_passed_over, part, spaces, without_return, word};
pub use value::{BYTE, LONG, SHORT, byte_word, long_word, read_bytes, short_word};
