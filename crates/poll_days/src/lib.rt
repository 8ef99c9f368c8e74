// The asks of a log's days on a line, one after the other, and the log's file saved after each day that changed it.
#![tactic(auto)]

mod days;
mod saving;

pub use days::{Course, End, Job, Plan, Span, poll};
pub use saving::{SaveError, Way, saved};
