// What a command that is done leaves behind: the record after it, and the store.
ghost use Rattle.std.specs.Prelude.{◌≡◌};
ghost use Rattle.meter.specs.Effect.{renewed, after_of, clears, store_after};

use frame::layout;
use meter_command::Command;
use meter_record::Record;
use parameters::code;
use parameters::code::Function;

// The record with all the seconds of its level.
fn renewed(r: Record) -> Record
    ensures { result ≡ renewed r }
{
    Record {
        protection: meter_clock::opened(r.protection.level),
        ..r
    }
}

#[tactic(auto, unfolding(crate::specs::Effect::after_of))]
pub fn record_after(r: Record, c: Command, frame: &[u8]) -> Record
    ensures { result ≡ after_of r c frame.now }
{
    match c.function {
        Function::Change => {
            let bytes = byte_numbers::tail(frame, layout::DATA);
            renewed(meter_command::changed(c.row.code, r, c.detail, bytes))
        }
        Function::Zero => renewed(meter_command::zeroed(c.row.code, r)),
        Function::Unlock => Record {
            protection: meter_clock::opened(meter_command::level_for(c.detail)),
            ..r
        },
        Function::Lock => Record {
            protection: meter_clock::shut(),
            ..r
        },
        Function::Read(_) | Function::Unknown => r,
    }
}

// Whether a command zeroes the slices.
#[tactic(auto, unfolding(crate::specs::Effect::clears))]
fn clears(c: Command) -> bool
    ensures { result ≡ clears c }
{
    matches!(c.function, Function::Zero) && c.row.code == code::SLICE
}

#[tactic(auto, unfolding(crate::specs::Effect::store_after))]
pub fn clear_store(store: &mut [u8], c: Command)
    ensures { store.new ≡ store_after store.old c }
{
    if clears(c) {
        meter_store::clear(store);
    }
}
