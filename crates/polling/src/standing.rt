// Which intervals a meter can be asked for at a moment.
ghost use Rattle.std.specs.Prelude.{◌≡◌};
ghost use Rattle.season_nights.specs.Night.{night_of, is_autumn};
ghost use Rattle.polling.specs.Standing.{standing_of, over_at, by_now};

use crate::moment::{DAY_MINUTES, days_to};
use calendar::Date;
use log_header::Header;
use season_nights::Night;

#[derive(Clone, Copy)]
pub enum Standing {
    Due,
    // Its end has not come: the meter would answer zeros.
    NotOver,
    // A request names no year, so that another year's interval could answer.
    TooOld,
}

// The hour that comes twice where summer time ends.
const TWICE_FROM: u32 = 120;

const TWICE_TO: u32 = 180;

const OLD_MINUTES: u32 = 300 * DAY_MINUTES;

// Slot and day are counted from 0, and the moment in minutes since 2000.
#[tactic(auto, unfolding(crate::specs::Standing::standing_of, crate::specs::Standing::standing_on))]
pub fn standing_of(h: Header, day: u8, slot: u8, now: u32) -> Standing
    ensures { result ≡ standing_of h day slot now }
{
    let Ok(date) = calendar::days_later(h.start, day as u16) else {
        return Standing::NotOver;
    };
    let end = h.minutes as u32 * (slot as u32 + 1);
    by_now(days_to(date) * DAY_MINUTES + over_at(date, end), now)
}

#[tactic(auto, unfolding(crate::specs::Standing::by_now))]
fn by_now(end: u32, now: u32) -> Standing
    ensures { result ≡ by_now end now }
{
    if now < end {
        return Standing::NotOver;
    }
    if OLD_MINUTES <= now - end {
        return Standing::TooOld;
    }
    Standing::Due
}

// The minute of a date at which an interval is over that ends at a minute of it.
#[tactic(auto, unfolding(crate::specs::Standing::over_at))]
fn over_at(date: Date, end: u32) -> u32
    ensures { result ≡ over_at date end }
{
    if ends_summer(date) && TWICE_FROM < end && end < TWICE_TO {
        TWICE_TO
    } else {
        end
    }
}

fn ends_summer(date: Date) -> bool
    ensures { result ≡ is_autumn (night_of date) }
{
    matches!(season_nights::night_of(date), Night::Autumn)
}
