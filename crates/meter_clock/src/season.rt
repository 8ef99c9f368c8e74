// The clock and its seasons: when summer time begins and ends, and what the clock shows a second later.
ghost use Rattle.std.specs.Prelude.{◌≡◌};
ghost use Rattle.meter_clock.specs.Season.{day_of, on_hour, chosen_date, summer_date, winter_date, is_switchable, is_choice, is_fitting};
ghost use Rattle.meter_clock.specs.Season.{reached, switched, into_winter, into_summer, next_time};

use calendar::{Date, DateError, DateTime};

#[derive(Clone, Copy, PartialEq, Eq)]
pub enum Season {
    Winter,
    Summer,
}

// The date on which a season begins.
#[derive(Clone, Copy, PartialEq, Eq)]
pub enum SwitchDate {
    // The calendar's, year by year.
    Automatic,
    // The one that was written, which stays.
    ByHand(DateTime),
}

#[derive(Clone, Copy, PartialEq, Eq)]
pub struct Time {
    pub clock: DateTime,
    pub season: Season,
    // When summer begins, and when winter.
    pub summer: SwitchDate,
    pub winter: SwitchDate,
}

const MARCH: u8 = 3;

const OCTOBER: u8 = 10;
// Summer time begins at 02:00:00 and ends at 03:00:00.
const SUMMER_HOUR: u8 = 2;

const WINTER_HOUR: u8 = 3;

fn day_of(answer: Result<Date, DateError>) -> u8
    ensures { result ≡ day_of answer }
{
    answer.map_or(0, |d| d.day)
}

#[tactic(auto, using(crate::proofs::SecondLaws::sunday_day))]
pub fn summer_date(choice: SwitchDate, year: u8) -> DateTime
    ensures { result ≡ summer_date choice year }
{
    let sunday = Date {
        year,
        month: MARCH,
        day: day_of(calendar::last_sunday_of_march(year)),
    };
    chosen(choice, sunday, SUMMER_HOUR)
}

#[tactic(auto, using(crate::proofs::SecondLaws::sunday_day))]
pub fn winter_date(choice: SwitchDate, year: u8) -> DateTime
    ensures { result ≡ winter_date choice year }
{
    let sunday = Date {
        year,
        month: OCTOBER,
        day: day_of(calendar::last_sunday_of_october(year)),
    };
    chosen(choice, sunday, WINTER_HOUR)
}

// The date that was written, else the given one at a full hour.
fn chosen(choice: SwitchDate, date: Date, hour: u8) -> DateTime
    ensures { result ≡ chosen_date choice (on_hour date hour) }
{
    match choice {
        SwitchDate::Automatic => DateTime {
            date,
            hour,
            minute: 0,
            second: 0,
        },
        SwitchDate::ByHand(t) => t,
    }
}

// Whether a date can be written by hand: the calendar has an hour before it and one after it.
pub fn is_switchable(t: DateTime) -> bool
    ensures { result ≡ is_switchable t }
{
    calendar::hour_earlier(t).is_ok() && calendar::hour_later(t).is_ok()
}

fn is_choice(choice: SwitchDate) -> bool
    ensures { result ≡ is_choice choice }
{
    match choice {
        SwitchDate::Automatic => true,
        SwitchDate::ByHand(t) => is_switchable(t),
    }
}

#[tactic(auto, unfolding(crate::specs::Season::is_fitting))]
pub fn is_fitting(t: Time) -> bool
    ensures { result ≡ is_fitting t }
{
    calendar::is_time(t.clock) && is_choice(t.summer) && is_choice(t.winter)
}

// The clock and seasons one second later.
#[tactic(auto, unfolding(crate::specs::Season::next_time))]
pub fn next_time(t: Time) -> Time
    ensures { result ≡ next_time t }
{
    match calendar::next_second(t.clock) {
        Ok(u) => reached(t, u),
        Err(_) => t,
    }
}

// A second that would reach u.
#[tactic(auto, unfolding(crate::specs::Season::reached))]
fn reached(t: Time, u: DateTime) -> Time
    ensures { result ≡ reached t u }
{
    match t.season {
        Season::Summer => into_winter(t, u),
        Season::Winter => into_summer(t, u),
    }
}

#[tactic(auto, unfolding(crate::specs::Season::into_winter))]
fn into_winter(t: Time, u: DateTime) -> Time
    ensures { result ≡ into_winter t u }
{
    switched(
        t,
        u,
        winter_date(t.winter, u.date.year),
        calendar::hour_earlier(u).unwrap_or(u),
        Season::Winter,
    )
}

#[tactic(auto, unfolding(crate::specs::Season::into_summer))]
fn into_summer(t: Time, u: DateTime) -> Time
    ensures { result ≡ into_summer t u }
{
    switched(
        t,
        u,
        summer_date(t.summer, u.date.year),
        calendar::hour_later(u).unwrap_or(u),
        Season::Summer,
    )
}

// The clock at u, or, if a season begins there, at the time that it begins with.
#[tactic(auto, unfolding(crate::specs::Season::switched, crate::specs::Season::same_time, crate::specs::Season::same_date))]
fn switched(t: Time, u: DateTime, begins: DateTime, shown: DateTime, season: Season) -> Time
    ensures { result ≡ switched t u begins shown season }
{
    if u == begins {
        Time {
            clock: shown,
            season,
            ..t
        }
    } else {
        Time { clock: u, ..t }
    }
}
