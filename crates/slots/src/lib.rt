// The slots of a day: how many an interval makes, and the key that names a slice by month, day and number.
#![tactic(auto)]

mod day;
mod key;

pub use day::{SLOTS_MOST, slots_of};
pub use key::{Key, is_legal};
