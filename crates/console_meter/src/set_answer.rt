// What a call makes of the bench meter.
ghost use Rattle.std.specs.Prelude.{◌≡◌};
ghost use Rattle.console_meter.specs.SetLines.{record_after};

use meter_record::{Record, RecordError};

// The record after a call: the one before where it is refused.
pub fn record_after(answer: Result<Record, RecordError>, r: Record) -> Record
    ensures { result ≡ record_after answer r }
{
    answer.unwrap_or(r)
}
