// Asks, lapses and replies over a log. At most one ask is open; the caller holds it and hands it in with the log. Each call looks at
// the header, one cell and one reply, and never walks the log. What a history of calls leaves in the log is stated in `claims`.
#![tactic(auto)]

mod ask;
mod held;
mod no_reply;
mod take;

pub use ask::{AskError, Asked, put_ask};
pub use held::{Answered, OpenAsk};
pub use no_reply::{LapseError, Lapsed, lapse};
pub use take::{TakeError, Taken, take_reply};
