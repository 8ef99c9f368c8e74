// Numbers, dates and bytes as ASCII text at any place of a byte buffer, and the place of a byte.
//
// Every function that writes is total: what lies past the buffer's end is not stored, so a text that does not fit is cut there.
#![tactic(auto)]

mod date;
mod decimal;
mod hex;
mod reading;
mod search;

pub use date::put_date;
pub use decimal::{decimal_length, put_decimal, put_two};
pub use hex::{hex_value, put_hex};
pub use reading::number_of;
pub use search::index_of;
