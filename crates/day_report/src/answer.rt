// What the functions of this crate answer.
ghost use Rattle.day_report.specs.Report.{error_number};

use refusal::Numbered;

#[derive(Clone, Copy, PartialEq, Eq)]
pub enum ReportError {
    // The buffer or the row is, or there are fewer figures than the log has.
    TooShort,
    // The lent log, or, where a strip shows it, a cell of the day.
    Unsound,
    // The day.
    NotInLog,
}

impl Numbered for ReportError {
    ghost number_of = { error_number };

    fn number(&self) -> u8 {
        match self {
            ReportError::TooShort => refusal::TOO_SHORT,
            ReportError::Unsound => refusal::UNSOUND,
            ReportError::NotInLog => refusal::NOT_IN_LOG,
        }
    }
}
