// Times: which bytes are one, the second and the hours around it.
ghost use Rattle.std.specs.Prelude.{◌≡◌, true};
ghost use Rattle.calendar.specs.Time.{is_time, seconds_later, seconds_earlier};
ghost use Rattle.calendar.specs.Steps.{on_day, time_error};

use crate::date::{Date, DateError, is_date, next_day, previous_day};

#[derive(Clone, Copy, PartialEq, Eq)]
pub struct DateTime {
    pub date: Date,
    pub hour: u8,
    pub minute: u8,
    pub second: u8,
}

#[derive(Clone, Copy, PartialEq, Eq)]
pub enum TimeError {
    // What was handed in is no time.
    NotATime,
    // The answer would lie outside 2000 to 2099.
    OutOfRange,
}

impl From<DateError> for TimeError {
    ghost from_gives = { λ e r. r ≡ time_error e };

    fn from(error: DateError) -> Self {
        match error {
            DateError::NotADate => TimeError::NotATime,
            DateError::OutOfRange => TimeError::OutOfRange,
        }
    }
}

const LAST_HOUR: u8 = 23;

const LAST_MINUTE: u8 = 59;

const LAST_SECOND: u8 = 59;

#[tactic(auto, unfolding(crate::specs::Time::is_time))]
pub fn is_time(t: DateTime) -> bool
    ensures { result ≡ is_time t }
{
    t.hour <= LAST_HOUR && t.minute <= LAST_MINUTE && t.second <= LAST_SECOND && is_date(t.date)
}

#[tactic(auto, unfolding(crate::specs::Time::seconds_later))]
pub fn next_second(t: DateTime) -> Result<DateTime, TimeError>
    ensures { result ≡ seconds_later t 1 }
{
    if is_time(t) {
        second_after(t)
    } else {
        Err(TimeError::NotATime)
    }
}

#[tactic(auto, unfolding(crate::specs::Time::seconds_later))]
pub fn hour_later(t: DateTime) -> Result<DateTime, TimeError>
    ensures { result ≡ seconds_later t 3600 }
{
    if is_time(t) {
        hour_after(t)
    } else {
        Err(TimeError::NotATime)
    }
}

#[tactic(auto, unfolding(crate::specs::Time::seconds_earlier))]
pub fn hour_earlier(t: DateTime) -> Result<DateTime, TimeError>
    ensures { result ≡ seconds_earlier t 3600 }
{
    if is_time(t) {
        hour_before(t)
    } else {
        Err(TimeError::NotATime)
    }
}

fn second_after(t: DateTime) -> Result<DateTime, TimeError>
    requires { is_time t ≡ true }
    ensures { result ≡ seconds_later t 1 }
{
    if t.second < LAST_SECOND {
        return Ok(DateTime {
            second: t.second + 1,
            ..t
        });
    }
    if t.minute < LAST_MINUTE {
        return Ok(DateTime {
            minute: t.minute + 1,
            second: 0,
            ..t
        });
    }
    hour_after(DateTime {
        minute: 0,
        second: 0,
        ..t
    })
}

fn hour_after(t: DateTime) -> Result<DateTime, TimeError>
    requires { is_time t ≡ true }
    ensures { result ≡ seconds_later t 3600 }
{
    if t.hour < LAST_HOUR {
        return Ok(DateTime {
            hour: t.hour + 1,
            ..t
        });
    }
    on_day(next_day(t.date), 0, t.minute, t.second)
}

fn hour_before(t: DateTime) -> Result<DateTime, TimeError>
    requires { is_time t ≡ true }
    ensures { result ≡ seconds_earlier t 3600 }
{
    if 0 < t.hour {
        return Ok(DateTime {
            hour: t.hour - 1,
            ..t
        });
    }
    on_day(previous_day(t.date), LAST_HOUR, t.minute, t.second)
}

#[tactic(auto, unfolding(crate::specs::Steps::on_day))]
fn on_day(
    day: Result<Date, DateError>,
    hour: u8,
    minute: u8,
    second: u8,
) -> Result<DateTime, TimeError>
    ensures { result ≡ on_day day hour minute second }
{
    Ok(DateTime {
        date: day?,
        hour,
        minute,
        second,
    })
}
