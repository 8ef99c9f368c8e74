// The console's lines about the Mercury 206: the one that sets the bench's meter, and those that make, answer and decode frames. What each makes of the
// meter and of an output, what it is answered, and the answer printed.
#![tactic(auto)]

mod answer;
mod lines;
mod printed;
mod setting;
mod verbs;

pub use answer::{Answer, Called};
pub use printed::print;
pub use setting::{LineError, first, set};
pub use verbs::{called, is_named};
