// The cursor of code that steps along a log: a slot of a day, with what is asked for once a day.
ghost use Rattle.std.specs.Prelude.{◌≡◌};
ghost use Rattle.energy_log.specs.Walk.{stand_at, stepped, index_of};

use log_header::Header;
use season_nights::Night;

#[derive(Clone, Copy, PartialEq, Eq)]
pub struct Walk {
    pub day: u8,
    pub slot: u8,
    // Those of a day.
    pub slots: u8,
    pub night: Night,
}

// At the first slot of a day, which may lie past the log's last.
pub fn walk_day(h: Header, day: u8) -> Walk
    ensures { result ≡ stand_at h day 0 }
{
    Walk {
        day,
        slot: 0,
        slots: slots::slots_of(h.minutes),
        night: log_header::night_on(h, day),
    }
}

// One slot further; at the day's end it stays.
#[tactic(auto, unfolding(crate::specs::Walk::stepped))]
pub fn next(at: Walk) -> Walk
    ensures { result ≡ stepped at }
{
    if at.slot < at.slots {
        Walk {
            slot: at.slot + 1,
            ..at
        }
    } else {
        at
    }
}

pub fn index_of(at: Walk) -> usize
    ensures { result ≡ index_of at }
{
    (at.day as usize) * (at.slots as usize) + at.slot as usize
}
