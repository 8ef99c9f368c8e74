// The bench's Mercury 206: it answers requests from figures that it is given.
#![tactic(auto)]

mod meter;
mod reply;

pub use meter::{Meter, is_within};
pub use reply::{AnswerError, answer};
