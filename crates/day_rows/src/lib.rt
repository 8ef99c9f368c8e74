// The eight figures of each day of a log: the walk over a day's cells that counts them, and the rows of all days, kept beside the log day after
// day. Those are copied for a report, filled by that walk, and changed by the net amount when a cell of the log is put. Every
// function is total: where a day's row is not all lent it is neither copied nor changed.
#![tactic(auto)]

mod fresh;
mod put;
mod rows;
mod tallies;

pub use fresh::fresh_log;
pub use put::{FigureError, change, comes_twice};
pub use rows::{FIGURES_MOST, REPORT_NUMBERS, copy_day, figures_of, fill};
pub use tallies::{Tallied, Tallies, tally};
