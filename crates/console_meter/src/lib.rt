// The console's lines of the bench meter. `meter`, `power`, `slice`, `second` and `ratio` set it, each with the record that stands after the line;
// the others are answered by it. What each makes of record, store and output and what it is answered is decided first, and then printed.
#![tactic(auto)]

mod answer;
mod making;
mod meters;
mod power;
mod printed;
mod ratio;
mod seconds;
mod set_answer;
mod set_lines;
mod slice;

pub use answer::{Answer, Called};
pub use making::first;
pub use meters::called;
pub use printed::print;
pub use seconds::{seconds_between, seconds_later};
pub use set_answer::record_after;
pub use set_lines::set;
