// A second that passes.
ghost use Rattle.std.specs.Prelude.{◌≡◌};
ghost use Rattle.meter_record.specs.Record.{second_of};

use crate::ranges::is_within;
use crate::record::{Record, RecordError};

#[tactic(auto, unfolding(crate::specs::Record::second_of))]
pub fn pass_second(r: Record) -> Result<Record, RecordError>
    ensures { result ≡ second_of r }
{
    if !is_within(r) {
        return Err(RecordError::Unsound);
    }
    Ok(Record {
        protection: meter_clock::ticked(r.protection),
        time: meter_clock::next_time(r.time),
        ..r
    })
}
