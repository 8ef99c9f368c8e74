// The days on which summer time begins and ends.
ghost use Rattle.std.specs.Prelude.{◌≡◌, ◌<◌};
ghost use Rattle.calendar.specs.Date.{days_in_month, day_number};
ghost use Rattle.calendar.specs.Sunday.{weekday, last_sunday_of};

use crate::date::{Date, DateError, YEARS};

const MARCH: u8 = 3;

const OCTOBER: u8 = 10;

// The weekdays of 31 March and 31 October 2000, Friday and Tuesday, counted from Sunday.
const MARCH_2000: u8 = 5;

const OCTOBER_2000: u8 = 2;

// Of March as of October.
const LAST_DAY: u8 = 31;

const DAYS_A_WEEK: u8 = 7;

pub fn last_sunday_of_march(year: u8) -> Result<Date, DateError>
    ensures { result ≡ last_sunday_of year 3 }
{
    last_sunday(year, MARCH, MARCH_2000)
}

pub fn last_sunday_of_october(year: u8) -> Result<Date, DateError>
    ensures { result ≡ last_sunday_of year 10 }
{
    last_sunday(year, OCTOBER, OCTOBER_2000)
}

// `first` is the weekday on which the month ended in 2000, the first year. A month after February ends one weekday later each year, and one
// more for each leap day since.
fn last_sunday(year: u8, month: u8, first: u8) -> Result<Date, DateError>
    requires lt_month { 2 < month }
    requires month_value { days_in_month 0 month ≡ 31 }
    requires first_value { first ≡ weekday (day_number (record { year = 0; month = month; day = 31 })) }
    ensures { result ≡ last_sunday_of year month }
{
    if year >= YEARS {
        return Err(DateError::NotADate);
    }
    let weekday = (year + year / 4 + first) % DAYS_A_WEEK;
    Ok(Date {
        year,
        month,
        day: LAST_DAY - weekday,
    })
}
