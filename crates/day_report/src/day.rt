// The line of a day of a lent log.
ghost use Rattle.std.specs.Prelude.{◌≡◌};
ghost use Rattle.refusal.specs.Outcome.{outcome};
ghost use Rattle.log_header.specs.Header.{sound_of};
ghost use Rattle.day_rows.specs.Rows.{copied};
ghost use Rattle.day_report.specs.Day.{zeros, day_on_text, day_text};

use crate::answer::ReportError;
use calendar::Date;
use day_rows::REPORT_NUMBERS;

#[tactic(auto, unfolding(crate::specs::Day::day_text))]
pub fn put_day(log: &[u8], figures: &[u32], day: u8, out: &mut [u8]) -> Result<usize, ReportError>
    ensures { outcome result out.new ≡ day_text (sound_of log.now) figures.now day out.old }
{
    let Some(h) = log_header::sound(log) else {
        return Err(ReportError::Unsound);
    };
    if figures.len() < day_rows::figures_of(h) {
        return Err(ReportError::TooShort);
    }
    put_day_on(figures, log_header::date_of(h, day), day, out)
}

#[tactic(auto, unfolding(crate::specs::Day::day_on_text))]
fn put_day_on(
    figures: &[u32],
    on: Option<Date>,
    day: u8,
    out: &mut [u8],
) -> Result<usize, ReportError>
    ensures { outcome result out.new ≡ day_on_text on (copied figures.now day zeros) out.old }
{
    let Some(date) = on else {
        return Err(ReportError::NotInLog);
    };
    let mut row = [0u32; REPORT_NUMBERS];
    day_rows::copy_day(figures, day, &mut row);
    crate::line::put_line(date, row, out)
}
