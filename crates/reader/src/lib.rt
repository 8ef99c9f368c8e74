// The reader's side of the wire: replies decoded against their request.
//
// From what a request asks for follow the length of its reply and the figures in it. Whether a reply is well formed and what the meter's
// result is, `reply_of` alone says, to the log's asks and to a poll's questions too.
#![tactic(auto)]

mod form;
mod reply;
mod rows;

pub use form::{Fault, ReplyError, reply_of};
pub use reply::{DecodeError, Decoded, decode};
pub use rows::six_slices;
