// What a record keeps to.
ghost use Rattle.std.specs.Prelude.{◌≡◌};
ghost use Rattle.meter_record.specs.Ranges.{is_telemetry, is_within, settings_right, bench_right};

use crate::power::are_powers;
use crate::ratios::are_ratios;
use crate::record::Record;
use wire_values::Telemetry;

// What the pulses for a kilowatt-hour times the weight of a count keep to.
const LEAST_PULSES: u64 = 40_000;

const MOST_PULSES: u64 = 5_000_000;

#[tactic(auto, unfolding(crate::specs::Ranges::is_telemetry))]
pub fn is_telemetry(t: Telemetry) -> bool
    ensures { result ≡ is_telemetry t }
{
    let pulses = (t.k as u64) * (t.ke as u64);
    LEAST_PULSES <= pulses && pulses <= MOST_PULSES
}

#[tactic(auto, unfolding(crate::specs::Ranges::is_within))]
pub fn is_within(r: Record) -> bool
    ensures { result ≡ is_within r }
{
    1 <= r.address && settings_right(r) && bench_right(r) && are_ratios(r.ratios)
}

// What the meter's own commands and seconds change.
#[tactic(auto, unfolding(crate::specs::Ranges::settings_right))]
fn settings_right(r: Record) -> bool
    ensures { result ≡ settings_right r }
{
    meter_clock::is_protection(r.protection)
        && meter_clock::is_fitting(r.time)
        && is_telemetry(r.telemetry)
}

// What the bench sets.
#[tactic(auto, unfolding(crate::specs::Ranges::bench_right, slots::specs::Day::slots_of, slots::specs::Day::is_minutes))]
fn bench_right(r: Record) -> bool
    ensures { result ≡ bench_right r }
{
    slots::slots_of(r.minutes) != 0
        && r.next < meter_store::PLACES
        && are_powers(r.active)
        && are_powers(r.reactive)
}
