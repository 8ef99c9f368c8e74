// The two nights on which the clock is moved where the automatic seasons are followed. On the last Sunday of March the hour from 02:00 to
// 03:00 is left out, on that of October it comes twice: which slots of a day do not exist and which come twice, and where the missing ones
// stand among a log's cells.
#![tactic(auto)]

mod night;
mod run;

pub use night::{Night, in_hour, is_doubled, is_missing, night_of};
pub use run::{Run, in_run, missing_run};
