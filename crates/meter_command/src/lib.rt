// Commands to the bench meter: what the bytes of a frame are as one, and what becomes of it.
//
// `judge` says it by the address met, the record and the command, in the papers' order of checks. What a change or a zeroing that is done leaves
// of the record is said here too; the meter puts its answer together from these.
#![tactic(auto)]

mod access;
mod change;
mod command;
mod judgement;
mod verdict;

pub use access::{Met, level_for};
pub use change::{changed, zeroed};
pub use command::{Command, command_of, function_in};
pub use judgement::judge;
pub use verdict::{Refusal, is_done, result_of};
