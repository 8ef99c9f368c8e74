// The bench meter: it answers a frame as an SS-301 does, from a record and a store of slices.
//
// What becomes of a command is `meter_command`'s to say; only one that is done has effects: data read into the reply, a record after it, a
// store made empty. The reply is put together around them.
#![tactic(auto)]

mod bench;
mod effect;
mod reply;

pub use bench::put_slice;
pub use reply::{Answered, answer, is_sound};
