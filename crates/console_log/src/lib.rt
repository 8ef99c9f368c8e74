// The console's lines of the log and of the reader, each with its answer on standard output. What is right is decided in the
// libraries below.
#![tactic(auto)]

mod logs;
mod reads;

pub use logs::{ConsoleLog, ask, cell, fresh, lapse, loaded, open_ask, reply, report};
pub use reads::{decode, request, request_in, say_figures};
