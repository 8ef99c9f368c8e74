// The missing slots of a log of at most 62 days, as one run of its cells: no two last Sundays of March lie so near to each other.
ghost use Rattle.std.specs.Prelude.{◌≡◌, true, ◌+◌, ◌*◌, ◌-◌, ◌<◌};
ghost use Rattle.calendar.specs.Date.{is_date, days_before};
ghost use Rattle.calendar.specs.Sunday.{last_sunday};
ghost use Rattle.season_nights.specs.Run.{spring_ahead, run_at, missing_run, in_run};

// Cells by their index, `count` of them from `first` on; none where `count` is 0.
#[derive(Clone, Copy, PartialEq, Eq)]
pub struct Run {
    pub first: usize,
    pub count: usize,
}

const HOURS_A_DAY: usize = 24;

// The hours of the day before the one that is left out.
const HOURS_BEFORE: usize = 2;

const JANUARY: u8 = 1;

const FEBRUARY: u8 = 2;

const MARCH: u8 = 3;

// Which cells of a log do not exist, where its cells stand in time order from the first slot of the start on. A log of more than 62 days,
// which there is not, may have others in a later year.
#[tactic(auto, unfolding(crate::specs::Run::missing_run))]
pub fn missing_run(start: calendar::Date, days: u8, minutes: u8) -> Run
    ensures { result ≡ missing_run start days minutes }
{
    run_at(spring_ahead(start), days, minutes)
}

#[tactic(auto, unfolding(crate::specs::Run::in_run))]
pub fn in_run(run: Run, cell: usize) -> bool
    ensures { result ≡ in_run run cell }
{
    run.first <= cell && cell - run.first < run.count
}

// The cells of the hour on the day that is so many days ahead, if the log has that day.
#[tactic(auto, unfolding(crate::specs::Run::run_at))]
fn run_at(ahead: Option<u8>, days: u8, minutes: u8) -> Run
    ensures { result ≡ run_at ahead days minutes }
{
    match ahead {
        Some(day) if day < days => {
            let slots = slots::slots_of(minutes) as usize;
            let hour = slots / HOURS_A_DAY;
            Run {
                first: (day as usize) * slots + HOURS_BEFORE * hour,
                count: hour,
            }
        }
        _ => Run { first: 0, count: 0 },
    }
}

#[tactic(auto, unfolding(crate::specs::Run::spring_ahead))]
fn spring_ahead(date: calendar::Date) -> Option<u8>
    ensures { result ≡ spring_ahead date }
{
    if !calendar::is_date(date) {
        return None;
    }
    let Ok(sunday) = calendar::last_sunday_of_march(date.year) else {
        return None;
    };
    to_day(date, sunday.day)
}

// `sunday` is the last Sunday of March.
fn to_day(date: calendar::Date, sunday: u8) -> Option<u8>
    requires date_value { is_date date ≡ true }
    requires sunday_value { sunday ≡ last_sunday date.year 3 }
    ensures { result ≡ spring_ahead date }
{
    if MARCH < date.month {
        return None;
    }
    (before_march(date.year, date.month) + sunday).checked_sub(date.day)
}

// The days from the first of a month to the first of March.
fn before_march(year: u8, month: u8) -> u8
    requires year_bound { year < 100 }
    requires month_nonzero { 0 < month }
    requires month_bound { month < 4 }
    ensures { days_before (12 * year + (month - 1)) + result ≡ days_before (12 * year + 2) }
{
    if month == MARCH {
        return 0;
    }
    let february = calendar::days_in_month(year, FEBRUARY);
    if month == FEBRUARY {
        return february;
    }
    calendar::days_in_month(year, JANUARY) + february
}
