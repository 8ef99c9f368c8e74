// A meter asked on a serial line, whichever it is: the line falls silent, a frame is sent, and what is heard then is gathered; a question is asked
// again where there was no answer.
#![tactic(auto)]

mod asking;
mod wire;

pub use asking::{Ask, asked};
pub use wire::{REPLY_ROOM, Wire, exchange, silent_again};
