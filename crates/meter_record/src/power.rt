// The powers that the bench sets.
ghost use Rattle.std.specs.Prelude.{◌≡◌};
ghost use Rattle.meter_record.specs.Power.{in_bounds, are_powers};
ghost use Rattle.meter_record.specs.Record.{powers_set, set_powers};

use crate::ranges::is_within;
use crate::record::{Record, RecordError};
use parameters::code;
use wire_values::Phases;

// The most that a phase has, in watts or vars, in either direction.
const MOST: f32 = 1000000.0;

const LEAST: f32 = -1000000.0;

#[tactic(auto, unfolding(crate::specs::Power::in_bounds))]
fn in_bounds(x: f32) -> bool
    ensures { result ≡ in_bounds x }
{
    LEAST <= x && x <= MOST
}

// What is no number passes neither test.
#[tactic(auto, unfolding(crate::specs::Power::are_powers))]
pub fn are_powers(p: Phases) -> bool
    ensures { result ≡ are_powers p }
{
    in_bounds(p.a) && in_bounds(p.b) && in_bounds(p.c)
}

// Sets the active or the reactive powers, by the parameter that reads them.
#[tactic(auto, unfolding(crate::specs::Record::set_powers))]
pub fn set_powers(r: Record, parameter: u8, phases: Phases) -> Result<Record, RecordError>
    ensures { result ≡ set_powers r parameter phases }
{
    if !is_within(r) {
        return Err(RecordError::Unsound);
    }
    if !are_powers(phases) {
        return Err(RecordError::OutOfRange);
    }
    powers_set(r, parameter, phases)
}

#[tactic(auto, unfolding(crate::specs::Record::powers_set))]
fn powers_set(r: Record, parameter: u8, phases: Phases) -> Result<Record, RecordError>
    ensures { result ≡ powers_set r parameter phases }
{
    match parameter {
        code::ACTIVE_POWER => Ok(Record {
            active: phases,
            ..r
        }),
        code::REACTIVE_POWER => Ok(Record {
            reactive: phases,
            ..r
        }),
        _ => Err(RecordError::OutOfRange),
    }
}
