// What night a date has, and which of its slots do not exist or come twice.
ghost use Rattle.std.specs.Prelude.{◌≡◌};
ghost use Rattle.season_nights.specs.Night.{night_of, is_day, in_hour, missing, doubled};

#[derive(Clone, Copy, PartialEq, Eq)]
pub enum Night {
    // As long as any other.
    Plain,
    // Of March: the hour is left out.
    Spring,
    // Of October: the hour comes twice.
    Autumn,
}

// The hour from 02:00 to 03:00, in minutes of the day.
const HOUR_BEGINS: u16 = 120;

const HOUR_ENDS: u16 = 180;

// What is no date is plain.
#[tactic(auto, unfolding(crate::specs::Night::night_of))]
pub fn night_of(date: calendar::Date) -> Night
    ensures { result ≡ night_of date }
{
    if is_day(calendar::last_sunday_of_march(date.year), date) {
        return Night::Spring;
    }
    if is_day(calendar::last_sunday_of_october(date.year), date) {
        return Night::Autumn;
    }
    Night::Plain
}

#[tactic(auto, unfolding(crate::specs::Night::missing))]
pub fn is_missing(night: Night, minutes: u8, slot: u8) -> bool
    ensures { result ≡ missing night minutes slot }
{
    matches!(night, Night::Spring) && in_hour(minutes, slot)
}

#[tactic(auto, unfolding(crate::specs::Night::doubled))]
pub fn is_doubled(night: Night, minutes: u8, slot: u8) -> bool
    ensures { result ≡ doubled night minutes slot }
{
    matches!(night, Night::Autumn) && in_hour(minutes, slot)
}

// Whether a slot begins in the hour.
#[tactic(auto, unfolding(crate::specs::Night::in_hour))]
pub fn in_hour(minutes: u8, slot: u8) -> bool
    ensures { result ≡ in_hour minutes slot }
{
    let begins = (slot as u16) * (minutes as u16);
    HOUR_BEGINS <= begins && begins < HOUR_ENDS
}

// Whether the calendar's answer for the date's own year is this date: the year is that of both, so month and day are compared.
#[tactic(auto, unfolding(crate::specs::Night::is_day))]
fn is_day(answer: Result<calendar::Date, calendar::DateError>, date: calendar::Date) -> bool
    ensures { result ≡ is_day answer date }
{
    matches!(answer, Ok(day) if day.month == date.month && day.day == date.day)
}
