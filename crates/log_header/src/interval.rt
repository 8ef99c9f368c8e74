// The intervals and the days of a log.
ghost use Rattle.std.specs.Prelude.{◌≡◌};
ghost use Rattle.log_header.specs.Interval.{interval_of, day_date, night_on, exists, missing_cells};

use crate::header::Header;
use season_nights::{Night, Run};

const SEASONS_FOLLOWED: u8 = 1;

// Days and slots are counted from 0.
pub fn interval_of(h: Header, day: u8, slot: u8) -> Option<usize>
    ensures { result ≡ interval_of h day slot }
{
    let slots = slots::slots_of(h.minutes);
    if day < h.days && slot < slots && exists(h, day, slot) {
        Some((day as usize) * (slots as usize) + slot as usize)
    } else {
        None
    }
}

// Whether a day has a slot. Past the log's own days and slots it says what the calendar does.
#[tactic(auto, unfolding(crate::specs::Interval::exists, season_nights::specs::Night::missing))]
pub fn exists(h: Header, day: u8, slot: u8) -> bool
    ensures { result ≡ exists h day slot }
{
    // Most slots need no look at the calendar.
    !season_nights::in_hour(h.minutes, slot) || !matches!(night_on(h, day), Night::Spring)
}

// The night of a day, plain where the seasons are not followed.
pub fn night_on(h: Header, day: u8) -> Night
    ensures { result ≡ night_on h day }
{
    if h.seasons != SEASONS_FOLLOWED {
        return Night::Plain;
    }
    let Ok(date) = calendar::days_later(h.start, day as u16) else {
        return Night::Plain;
    };
    season_nights::night_of(date)
}

// The cells whose slots do not exist.
pub fn missing_cells(h: Header) -> Run
    ensures { result ≡ missing_cells h }
{
    if h.seasons != SEASONS_FOLLOWED {
        return Run { first: 0, count: 0 };
    }
    season_nights::missing_run(h.start, h.days, h.minutes)
}

pub fn date_of(h: Header, day: u8) -> Option<calendar::Date>
    ensures { result ≡ day_date h day }
{
    if h.days <= day {
        return None;
    }
    calendar::days_later(h.start, day as u16).ok()
}
