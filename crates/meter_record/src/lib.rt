// The bench meter's record: all that the meter holds but its store of slices, as one value.
//
// Its ranges are one definition. Every call tests them, and every call that is done keeps them. Here the bench makes a record, sets
// the powers and the ratios, and lets a second pass; what the meter does with a frame stands in the crate `meter`.
#![tactic(auto)]

mod display;
mod making;
mod passing;
mod power;
mod ranges;
mod ratios;
mod record;

pub use display::shown;
pub use making::make;
pub use passing::pass_second;
pub use power::set_powers;
pub use ranges::{is_telemetry, is_within};
pub use ratios::{are_ratios, set_ratios};
pub use record::{Password, Passwords, Ratios, Record, RecordError};
