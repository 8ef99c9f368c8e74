// The calendar of a meter's clock: the dates and times of 2000 to 2099 as the meter writes them, a binary byte each for second, minute,
// hour, day, month and the year's last two digits. It says which bytes are a date or a time, which day, second or hour comes next or
// came before, and on which days summer time begins and ends. What each answer means stands in specs/, as a count of days or of seconds
// since the start of 2000.
#![tactic(auto)]

mod date;
mod sunday;
mod time;

pub use date::{
    Date, DateError, day_number, days_in_month, days_later, is_date, next_day, previous_day,
};
pub use sunday::{last_sunday_of_march, last_sunday_of_october};
pub use time::{DateTime, TimeError, hour_earlier, hour_later, is_time, next_second};
