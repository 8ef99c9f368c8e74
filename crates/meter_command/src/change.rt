// Changes: which fit, and the record after one. What the table of parameters does not open has no word here.
ghost use Rattle.std.specs.Prelude.{◌≡◌};
ghost use Rattle.meter_record.specs.With.{with_summer, with_winter};
ghost use Rattle.meter_command.specs.Change.{telemetry_fits, detail_fits, data_fits, passwords_after, changed_to, zeroed_to};

use crate::access::AUXILIARY;
use meter_clock::{SwitchDate, Time};
use meter_record::{Password, Passwords, Record};
use parameters::code;
use wire_values::Telemetry;

// Whether the detail is one that a change of the parameter has.
pub fn detail_fits(from: u8, to: u8, detail: u8) -> bool
    ensures { result ≡ detail_fits from to detail }
{
    from <= detail && detail <= to
}

#[tactic(auto, unfolding(crate::specs::Change::telemetry_fits))]
fn telemetry_fits(t: Telemetry, stored: Telemetry) -> bool
    ensures { result ≡ telemetry_fits t stored }
{
    t.ke == stored.ke && meter_record::is_telemetry(t)
}

// Whether a change's data are a right argument, by the parameter's code.
#[tactic(auto, unfolding(crate::specs::Change::data_fits))]
pub fn data_fits(code: u8, stored: Telemetry, bytes: &[u8]) -> bool
    ensures { result ≡ data_fits code stored bytes.now }
{
    match code {
        code::ADDRESS => 1 <= byte_numbers::byte_at(bytes, 0),
        code::TELEMETRY => telemetry_fits(wire_values::telemetry_of(bytes), stored),
        code::SUMMER_DATE | code::WINTER_DATE => {
            meter_clock::is_switchable(wire_values::date_time_of(bytes))
        }
        code::CLOCK => calendar::is_time(wire_values::date_time_of(bytes)),
        _ => true,
    }
}

#[tactic(auto, unfolding(crate::specs::Change::passwords_after))]
fn passwords_after(p: Passwords, detail: u8, password: u64) -> Passwords
    ensures { result ≡ passwords_after p detail password }
{
    if detail == AUXILIARY {
        Passwords {
            auxiliary: Password(password),
            ..p
        }
    } else {
        Passwords {
            main: Password(password),
            ..p
        }
    }
}

fn with_summer(r: Record, summer: SwitchDate) -> Record
    ensures { result ≡ with_summer r summer }
{
    Record {
        time: Time { summer, ..r.time },
        ..r
    }
}

fn with_winter(r: Record, winter: SwitchDate) -> Record
    ensures { result ≡ with_winter r winter }
{
    Record {
        time: Time { winter, ..r.time },
        ..r
    }
}

// The record after a change that fits, by the parameter's code.
#[tactic(auto, unfolding(crate::specs::Change::changed_to))]
pub fn changed(code: u8, r: Record, detail: u8, bytes: &[u8]) -> Record
    ensures { result ≡ changed_to code r detail bytes.now }
{
    match code {
        code::ADDRESS => Record {
            address: byte_numbers::byte_at(bytes, 0),
            ..r
        },
        code::TELEMETRY => Record {
            telemetry: wire_values::telemetry_of(bytes),
            ..r
        },
        code::SUMMER_DATE => with_summer(r, SwitchDate::ByHand(wire_values::date_time_of(bytes))),
        code::WINTER_DATE => with_winter(r, SwitchDate::ByHand(wire_values::date_time_of(bytes))),
        code::CLOCK => Record {
            time: Time {
                clock: wire_values::date_time_of(bytes),
                ..r.time
            },
            ..r
        },
        code::DISPLAY_MASK => Record {
            mask: wire_values::display_mask(bytes),
            ..r
        },
        code::PASSWORD => Record {
            passwords: passwords_after(r.passwords, detail, byte_numbers::u64_at(bytes, 0)),
            ..r
        },
        _ => r,
    }
}

// The record after a zeroing.
#[tactic(auto, unfolding(crate::specs::Change::zeroed_to))]
pub fn zeroed(code: u8, r: Record) -> Record
    ensures { result ≡ zeroed_to code r }
{
    match code {
        code::SUMMER_DATE => with_summer(r, SwitchDate::Automatic),
        code::WINTER_DATE => with_winter(r, SwitchDate::Automatic),
        code::SLICE => Record { next: 0, ..r },
        _ => r,
    }
}
