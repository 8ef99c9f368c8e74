// `second`: time that passes.
ghost use Rattle.std.specs.Prelude.{◌≡◌};
ghost use Rattle.console_meter.specs.SetLines.{later_by, second_line, seconds_between};

use crate::set_answer::record_after;
use meter_record::{Record, RecordError};

// The most seconds of one line.
const MOST_SECONDS: u64 = 100000000;

// N
#[tactic(auto, unfolding(crate::specs::SetLines::second_line))]
pub fn second(line: &[u8], r: Record) -> Option<Result<Record, RecordError>>
    ensures { result ≡ second_line r line.now }
{
    if !console::is_form(line, &[MOST_SECONDS]) {
        return None;
    }
    Some(Ok(seconds_later(r, console::long(line, 1))))
}

// The record when so many seconds have passed.
pub fn seconds_later(r: Record, n: u32) -> Record
    ensures { result ≡ later_by n r }
{
    let mut after = r;
    for passed in 0..n {
        after = record_after(meter_record::pass_second(after), after);
    }
    after
}

// The most seconds that are made up for at once: thirty days. A wall clock that was set further on than that sets no meter back to
// work for minutes.
const MOST_CAUGHT_UP: u64 = 2592000;

// How many seconds pass in the meter between two looks at a wall clock: none where it went back.
#[tactic(auto, unfolding(crate::specs::SetLines::seconds_between))]
pub fn seconds_between(last: u64, now: u64) -> u32
    ensures { result ≡ seconds_between last now }
{
    now.saturating_sub(last).min(MOST_CAUGHT_UP) as u32
}
