// Slices that the bench puts into the store.
ghost use Rattle.std.specs.Prelude.{◌≡◌};
ghost use Rattle.refusal.specs.Outcome.{outcome};
ghost use Rattle.meter.specs.Bench.{slice_put};

use crate::reply::is_sound;
use meter_record::{Record, RecordError};
use slots::Key;

#[tactic(auto, unfolding(crate::specs::Bench::slice_put))]
pub fn put_slice(
    r: Record,
    store: &mut [u8],
    k: Key,
    counts: [u16; 4],
) -> Result<Record, RecordError>
    ensures { outcome result store.new ≡ slice_put r store.old k counts }
{
    if !is_sound(r, store) {
        return Err(RecordError::Unsound);
    }
    if !slots::is_legal(k, slots::slots_of(r.minutes)) {
        return Err(RecordError::OutOfRange);
    }
    let next = meter_store::put_slice(store, r.next, k, counts);
    Ok(Record { next, ..r })
}
