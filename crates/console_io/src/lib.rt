// What the programs over the console's lines read and write: lines from a reader, the words of an answer to standard output, and for
// people words about it to standard error.
#![tactic(auto)]

mod input;
pub mod say;
mod typed;

pub use input::{LINE_ROOM, Rest, Taken, next_line};
pub use typed::is_typed;
