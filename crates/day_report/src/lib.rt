// The day report of a log: how many cells of a day are gaps, empty and measured, the sums of what was measured, and how many measured cells
// come twice, as numbers in a lent row; its text: a heading, and a line for each day, as `2024-05-17 46 1 1 12 0 3 0 0`; and a day's strip, a
// character a slot (`.` gap, `o` empty, `#` measured, `-` for a slot that does not exist), as `2024-05-17 #o......`. It reads the log by the
// crate `log` alone and knows nothing of the image's layout. Each function fills what it is lent from the front on, or refuses and leaves it
// as it was.
#![tactic(auto)]

mod answer;
mod day;
mod line;
mod report;
mod strip;

pub use answer::ReportError;
pub use day::put_day;
pub use day_rows::REPORT_NUMBERS;
pub use line::{LINE_MOST, put_heading, put_line};
pub use report::day_report;
pub use strip::{STRIP_MOST, put_strip};
