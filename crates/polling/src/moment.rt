// Moments as minutes since the start of 2000.
ghost use Rattle.std.specs.Prelude.{◌≡◌};
ghost use Rattle.polling.specs.Moment.{moment_of, machine_minute, far_apart, days_to};

use calendar::{Date, DateTime};

pub const DAY_MINUTES: u32 = 1440;

const HOUR_MINUTES: u32 = 60;

const MINUTE_SECONDS: u64 = 60;

// 2000-01-01 in seconds since 1970.
const MACHINE_START: u64 = (30 * 365 + 7) * 86400;

// The minutes of the hundred years.
const CENTURY_MINUTES: u64 = 36525 * 1440;

#[tactic(auto, unfolding(crate::specs::Moment::moment_of))]
pub fn moment_of(t: DateTime) -> Option<u32>
    ensures { result ≡ moment_of t }
{
    if !calendar::is_time(t) {
        return None;
    }
    let minute = t.hour as u32 * HOUR_MINUTES + t.minute as u32;
    Some(days_to(t.date) * DAY_MINUTES + minute)
}

// The days before a date since the start of 2000; none before what is no date.
#[tactic(auto, unfolding(crate::specs::Moment::days_to, calendar::specs::Date::day_of))]
pub fn days_to(date: Date) -> u32
    ensures { result ≡ days_to date }
{
    calendar::day_number(date).unwrap_or(0)
}

// The machine's time, by its seconds since 1970.
#[tactic(auto, unfolding(crate::specs::Moment::machine_minute))]
pub fn machine_minute(seconds: u64) -> u32
    ensures { result ≡ machine_minute seconds }
{
    let minute = seconds.saturating_sub(MACHINE_START) / MINUTE_SECONDS;
    minute.min(CENTURY_MINUTES - 1) as u32
}

// Whether two moments lie more than a day apart.
#[tactic(auto, unfolding(crate::specs::Moment::far_apart))]
pub fn far_apart(a: u32, b: u32) -> bool
    ensures { result ≡ far_apart a b }
{
    DAY_MINUTES < a.abs_diff(b)
}
