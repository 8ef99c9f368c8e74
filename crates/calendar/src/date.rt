// Dates: which bytes are one, and the dates some days on.
ghost use Rattle.std.specs.Prelude.{◌≡◌, true, ◌<◌, ◌+◌};
ghost use Rattle.calendar.specs.Date.{is_date, days_in_month, length_of, days_before, month_number, day_number};
ghost use Rattle.calendar.specs.Date.{date_at, date_on, date_back, days_later, days_earlier, day_of};

#[derive(Clone, Copy, PartialEq, Eq)]
pub struct Date {
    // Counted from 2000.
    pub year: u8,
    // Counted from 1, as the day is.
    pub month: u8,
    pub day: u8,
}

#[derive(Clone, Copy, PartialEq, Eq)]
pub enum DateError {
    // What was handed in is no date.
    NotADate,
    // The answer would lie outside 2000 to 2099.
    OutOfRange,
}

// The hundred years' years and months.
pub const YEARS: u8 = 100;

const MONTHS: u16 = 1200;

const MONTHS_A_YEAR: u16 = 12;

const FEBRUARY: u8 = 2;

const AUGUST: u8 = 8;

const DECEMBER: u8 = 12;

pub fn days_in_month(year: u8, month: u8) -> u8
    ensures { result ≡ days_in_month year month }
{
    if year >= YEARS || month == 0 || month > DECEMBER {
        return 0;
    }
    if month == FEBRUARY {
        return february(year);
    }
    // 31 and 30 days take turns, from January and again from August.
    30 + (month + month / AUGUST) % 2
}

// From 2000 to 2099 the fourth years alone are leap years: 2000 is one by the rule of 400, and 2100 is past the end.
#[tactic(auto, using(crate::proofs::DateLaws::february))]
fn february(year: u8) -> u8
    requires { year < 100 }
    ensures { result ≡ days_in_month year 2 }
{
    if year % 4 == 0 { 29 } else { 28 }
}

pub fn is_date(d: Date) -> bool
    ensures { result ≡ is_date d }
{
    1 <= d.day && d.day <= days_in_month(d.year, d.month)
}

#[tactic(auto, unfolding(crate::specs::Date::day_of, crate::specs::Date::day_number))]
pub fn day_number(d: Date) -> Option<u32>
    ensures { result ≡ day_of d }
{
    if is_date(d) {
        Some(days_before(month_number(d)) + (d.day as u32 - 1))
    } else {
        None
    }
}

// The days of all months before one.
fn days_before(month: u16) -> u32
    requires { month < 1200 }
    ensures { result ≡ days_before month }
{
    let mut days = 0;
    for at in 0..month {
        days += length_of(at);
    }
    days
}

pub fn next_day(d: Date) -> Result<Date, DateError>
    ensures { result ≡ days_later d 1 }
{
    days_later(d, 1)
}

#[tactic(auto, unfolding(crate::specs::Date::days_later))]
pub fn days_later(d: Date, n: u16) -> Result<Date, DateError>
    ensures { result ≡ days_later d n }
{
    if is_date(d) {
        carried(month_number(d), d.day as u32 - 1 + n as u32)
    } else {
        Err(DateError::NotADate)
    }
}

#[tactic(auto, unfolding(crate::specs::Date::days_earlier))]
pub fn previous_day(d: Date) -> Result<Date, DateError>
    ensures { result ≡ days_earlier d 1 }
{
    if is_date(d) {
        day_before(d)
    } else {
        Err(DateError::NotADate)
    }
}

// The date so many days after the first of a month. Whole months are carried until the rest fits into one.
fn carried(month: u16, days: u32) -> Result<Date, DateError>
    ensures { result ≡ date_on (days_before month + days) }
{
    let mut left = days;
    for at in month..MONTHS {
        let length = length_of(at);
        if left < length {
            return Ok(date_at(at, left));
        }
        left -= length;
    }
    Err(DateError::OutOfRange)
}

fn day_before(d: Date) -> Result<Date, DateError>
    requires { is_date d ≡ true }
    ensures { result ≡ date_back (day_number d) 1 }
{
    if 1 < d.day {
        return Ok(Date {
            day: d.day - 1,
            ..d
        });
    }
    last_day_before(month_number(d))
}

// The day before the first of a month.
fn last_day_before(month: u16) -> Result<Date, DateError>
    requires { month < 1200 }
    ensures { result ≡ date_back (days_before month) 1 }
{
    if month == 0 {
        return Err(DateError::OutOfRange);
    }
    let last = length_of(month - 1) - 1;
    Ok(date_at(month - 1, last))
}

// Months since January 2000.
fn month_number(d: Date) -> u16
    requires { is_date d ≡ true }
    ensures { result ≡ month_number d }
{
    MONTHS_A_YEAR * (d.year as u16) + (d.month as u16 - 1)
}

#[tactic(auto, unfolding(crate::specs::Date::length_of))]
fn length_of(month: u16) -> u32
    requires { month < 1200 }
    ensures { result ≡ length_of month }
{
    days_in_month(
        (month / MONTHS_A_YEAR) as u8,
        (month % MONTHS_A_YEAR + 1) as u8,
    ) as u32
}

// The date so many days after the first of a month, in that month.
#[tactic(auto, unfolding(crate::specs::Date::date_at))]
fn date_at(month: u16, days: u32) -> Date
    requires month_bound { month < 1200 }
    requires days_bound { days < 31 }
    ensures { result ≡ date_at (record { piece = month; rest = days }) }
{
    Date {
        year: (month / MONTHS_A_YEAR) as u8,
        month: (month % MONTHS_A_YEAR + 1) as u8,
        day: days as u8 + 1,
    }
}
