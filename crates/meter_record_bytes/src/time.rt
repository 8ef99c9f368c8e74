// The clock and its seasons, 21 bytes: the clock's six, the season, and seven for each date on which a season begins.
ghost use Rattle.std.specs.Prelude.{◌≡◌};
ghost use Rattle.byte_numbers.specs.Place.{written};
ghost use Rattle.wire_values.specs.Clock.{date_time_bytes};
ghost use Rattle.meter_record_bytes.specs.Time.{season_byte, season_of, choice_byte, date_or_zeros, switch_bytes, switch_of, time_bytes, time_of};

use calendar::{Date, DateTime};
use meter_clock::{Season, SwitchDate, Time};

const WINTER: u8 = 0;

const SUMMER: u8 = 1;

const AUTOMATIC: u8 = 0;

const BY_HAND: u8 = 1;
// Places behind the clock.
const SEASON: usize = 6;

const SUMMER_DATE: usize = 7;

const WINTER_DATE: usize = 14;

fn season_byte(s: Season) -> u8
    ensures { result ≡ season_byte s }
{
    match s {
        Season::Winter => WINTER,
        Season::Summer => SUMMER,
    }
}

#[tactic(auto, unfolding(crate::specs::Time::season_of))]
pub fn season_of(byte: u8) -> Option<Season>
    ensures { result ≡ season_of byte }
{
    match byte {
        WINTER => Some(Season::Winter),
        SUMMER => Some(Season::Summer),
        _ => None,
    }
}

fn choice_byte(choice: SwitchDate) -> u8
    ensures { result ≡ choice_byte choice }
{
    match choice {
        SwitchDate::Automatic => AUTOMATIC,
        SwitchDate::ByHand(_) => BY_HAND,
    }
}

// The date that was written by hand, else zeros.
fn date_or_zeros(choice: SwitchDate) -> DateTime
    ensures { result ≡ date_or_zeros choice }
{
    match choice {
        SwitchDate::Automatic => DateTime {
            date: Date {
                year: 0,
                month: 0,
                day: 0,
            },
            hour: 0,
            minute: 0,
            second: 0,
        },
        SwitchDate::ByHand(t) => t,
    }
}

// The six bytes of a date and time, in the part that begins at a place.
fn put_date_time(out: &mut [u8], at: usize, t: DateTime)
    ensures { out.new ≡ written out.old at (date_time_bytes t) }
{
    if at < out.len() {
        wire_values::put_date_time(&mut out[at..], t);
    }
}

fn put_switch(out: &mut [u8], at: usize, choice: SwitchDate)
    ensures { out.new ≡ written out.old at (switch_bytes choice) }
{
    if at < out.len() {
        byte_numbers::put_byte(out, at, choice_byte(choice));
        put_date_time(out, at + 1, date_or_zeros(choice));
    }
}

#[tactic(auto, unfolding(crate::specs::Time::switch_of))]
fn switch_of(bytes: &[u8]) -> Option<SwitchDate>
    ensures { result ≡ switch_of bytes.now }
{
    match byte_numbers::byte_at(bytes, 0) {
        AUTOMATIC => Some(SwitchDate::Automatic),
        BY_HAND => Some(SwitchDate::ByHand(wire_values::date_time_of(byte_numbers::tail(
            bytes, 1,
        )))),
        _ => None,
    }
}

pub fn put_time(out: &mut [u8], at: usize, t: Time)
    ensures { out.new ≡ written out.old at (time_bytes t) }
{
    if at < out.len() {
        put_date_time(out, at, t.clock);
        byte_numbers::put_byte(out, at + SEASON, season_byte(t.season));
        put_switch(out, at + SUMMER_DATE, t.summer);
        put_switch(out, at + WINTER_DATE, t.winter);
    }
}

#[tactic(auto, unfolding(crate::specs::Time::time_of, crate::specs::Time::together))]
pub fn time_of(bytes: &[u8]) -> Option<Time>
    ensures { result ≡ time_of bytes.now }
{
    let clock = wire_values::date_time_of(bytes);
    // Not by `?`, which copies each of them once more.
    let Some(season) = season_of(byte_numbers::byte_at(bytes, SEASON)) else {
        return None;
    };
    let Some(summer) = switch_of(byte_numbers::tail(bytes, SUMMER_DATE)) else {
        return None;
    };
    let Some(winter) = switch_of(byte_numbers::tail(bytes, WINTER_DATE)) else {
        return None;
    };
    Some(Time {
        clock,
        season,
        summer,
        winter,
    })
}
