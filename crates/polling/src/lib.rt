// What a poller of the log decides: which interval it asks for next and in which order, when a reply is whole and when to stop listening, what becomes of
// an ask, and the tally of that. Reading and writing the line is the caller's. The log changes by the logger's calls alone.
#![tactic(auto)]

mod fate;
mod moment;
mod next;
mod order;
mod question;
mod reply;
mod standing;
mod tally;

pub use fate::{Fate, Settled, settle};
pub use moment::{DAY_MINUTES, days_to, far_apart, machine_minute, moment_of};
pub use next::{Wanted, next_gap, next_wanted};
pub use order::{Order, day_in_order, next_in_order, passed_with};
pub use question::{Learned, Question, answer_bytes, fits_log, learned_from, put_question};
pub use reply::{SILENT_MOST, is_enough, is_over, is_whole};
pub use standing::{Standing, standing_of};
pub use tally::{Faults, Passed, Tally, counted, passed_over, passed_together, together};
