// The Mercury 206 on the wire: its three readings, its frames, and replies decoded.
//
// A frame is the address, a command, data and the SS-301's CRC. A reading's figures have units of their own, and their bytes in a frame's
// data part: `put_tariffs` and the others write them for a bench meter, `decode` reads them. No reading enters the log.
#![tactic(auto)]

pub mod command;
mod data;
mod form;
mod head;
pub mod layout;
mod reply;
mod request;
pub mod units;

pub use command::Command;
pub use data::{put_frequency, put_load, put_tariffs};
pub use form::{Fault, request_form};
pub use head::put_head;
pub use reply::{DecodeError, Decoded, decode};
pub use request::{RequestError, put_request};
pub use units::{Frequency, Load, Tariffs};
