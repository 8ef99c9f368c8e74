// The day report: how many cells of a day are gaps, empty and measured, the sums of what was measured, and how many measured cells come twice,
// as they are kept beside the log.
ghost use Rattle.std.specs.Prelude.{◌≡◌};
ghost use Rattle.refusal.specs.Outcome.{outcome};
ghost use Rattle.log_header.specs.Header.{sound_of};
ghost use Rattle.day_report.specs.Report.{report_of};

use crate::answer::ReportError;
use day_rows::REPORT_NUMBERS;

// Copies the day's figures to the row's first numbers; a refusal leaves it as it was. No cell is read.
#[tactic(auto, unfolding(crate::specs::Report::report_of))]
pub fn day_report(log: &[u8], figures: &[u32], day: u8, row: &mut [u32]) -> Result<(), ReportError>
    ensures { outcome result row.new ≡ report_of (sound_of log.now) figures.now day row.old }
{
    if row.len() < REPORT_NUMBERS {
        return Err(ReportError::TooShort);
    }
    let Some(h) = log_header::sound(log) else {
        return Err(ReportError::Unsound);
    };
    if figures.len() < day_rows::figures_of(h) {
        return Err(ReportError::TooShort);
    }
    if h.days <= day {
        return Err(ReportError::NotInLog);
    }
    day_rows::copy_day(figures, day, row);
    Ok(())
}
