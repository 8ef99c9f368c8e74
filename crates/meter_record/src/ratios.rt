// The ratios of the current and voltage transformers before the meter.
ghost use Rattle.std.specs.Prelude.{◌≡◌};
ghost use Rattle.meter_record.specs.Ratios.{are_ratios};
ghost use Rattle.meter_record.specs.Record.{set_ratios};

use crate::ranges::is_within;
use crate::record::{Ratios, Record, RecordError};

// The most that the product of the two is.
const MOST: u64 = 1_000_000;

#[tactic(auto, unfolding(crate::specs::Ratios::are_ratios))]
pub fn are_ratios(k: Ratios) -> bool
    ensures { result ≡ are_ratios k }
{
    let product = (k.ki as u64) * (k.ku as u64);
    1 <= k.ki && 1 <= k.ku && product <= MOST
}

#[tactic(auto, unfolding(crate::specs::Record::set_ratios))]
pub fn set_ratios(r: Record, ratios: Ratios) -> Result<Record, RecordError>
    ensures { result ≡ set_ratios r ratios }
{
    if !is_within(r) {
        return Err(RecordError::Unsound);
    }
    if !are_ratios(ratios) {
        return Err(RecordError::OutOfRange);
    }
    Ok(Record { ratios, ..r })
}
