// The strip of a day of a lent log: its date, and a character a slot.
ghost use Rattle.std.specs.Prelude.{◌≡◌, not};
ghost use Rattle.refusal.specs.Outcome.{outcome};
ghost use Rattle.byte_numbers.specs.Place.{written};
ghost use Rattle.energy_log.specs.Image.{cell_at};
ghost use Rattle.energy_log.specs.View.{view_of};
ghost use Rattle.day_report.specs.Text.{put_text};
ghost use Rattle.day_report.specs.Strip.{mark, marks_at, day_marks, strip_of, strip_text};

use crate::answer::ReportError;
use crate::line::{DATE_BYTES, LINE_FEED, SPACE};
use calendar::Date;
use energy_log::Walk;
use log_cell::Cell;
use log_header::Header;

// Where the marks begin: behind the date and a space.
const MARKS: usize = DATE_BYTES + 1;

// The longest strip.
pub const STRIP_MOST: usize = MARKS + slots::SLOTS_MOST as usize + 1;

pub fn put_strip(log: &[u8], day: u8, out: &mut [u8]) -> Result<usize, ReportError>
    ensures { outcome result out.new ≡ strip_text (view_of log.now) day out.old }
{
    let Some(h) = log_header::sound(log) else {
        return Err(ReportError::Unsound);
    };
    let Some(date) = log_header::date_of(h, day) else {
        return Err(ReportError::NotInLog);
    };
    // A bad cell is found before a byte is written.
    let Some(_) = day_rows::tally(log, h, day) else {
        return Err(ReportError::Unsound);
    };
    put_marked(log, h, date, day, out)
}

fn put_marked(
    log: &[u8],
    h: Header,
    date: Date,
    day: u8,
    out: &mut [u8],
) -> Result<usize, ReportError>
    ensures { outcome result out.new ≡ put_text (strip_of date (day_marks (cell_at log.now) h day)) out.old }
{
    let slots = slots::slots_of(h.minutes);
    let end = MARKS + slots as usize;
    if out.len() <= end {
        return Err(ReportError::TooShort);
    }
    text::put_date(out, 0, date);
    byte_numbers::put_byte(out, DATE_BYTES, SPACE);
    put_marks(out, log, h, day);
    byte_numbers::put_byte(out, end, LINE_FEED);
    Ok(end + 1)
}

fn put_marks(out: &mut [u8], log: &[u8], h: Header, day: u8)
    ensures { out.new ≡ written out.old marks_at (day_marks (cell_at log.now) h day) }
{
    let first = energy_log::walk_day(h, day);
    for slot in 0..first.slots {
        let at = Walk { slot, ..first };
        let missing = season_nights::is_missing(at.night, h.minutes, at.slot);
        let mark = mark_at(log, missing, energy_log::index_of(at));
        byte_numbers::put_byte(out, MARKS + slot as usize, mark);
    }
}

// Of the slot with this cell. The cell of a slot that does not exist is not read.
#[tactic(auto, unfolding(crate::specs::Strip::mark))]
fn mark_at(log: &[u8], missing: bool, i: usize) -> u8
    ensures { result ≡ mark (not missing) (cell_at log.now i) }
{
    if missing {
        return b'-';
    }
    match energy_log::cell_at(log, i) {
        Some(Cell::Gap) => b'.',
        Some(Cell::Empty) => b'o',
        Some(Cell::Measured(..)) => b'#',
        None => b'?',
    }
}
