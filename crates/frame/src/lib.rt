// Frames on the wire: where their parts stand, and the CRC that closes a frame.
#![tactic(auto)]

pub mod layout;
mod sealing;

pub use sealing::{crc_fits, is_sealed, seal};
