// A new record.
ghost use Rattle.std.specs.Prelude.{◌≡◌};
ghost use Rattle.meter_record.specs.Record.{fresh, made};

use crate::ranges::is_within;
use crate::record::{Password, Passwords, Ratios, Record, RecordError};
use calendar::DateTime;
use meter_clock::{Season, SwitchDate, Time};
use wire_values::{DisplayMask, Phases, Telemetry};

// Eight bytes 30 hex.
const FACTORY_PASSWORD: u64 = 0x3030_3030_3030_3030;

// Every bit of the mask.
const ALL_PARAMETERS: u32 = 0xFFFF_FFFF;

const ALL_TARIFFS: u8 = 0xFF;

const ALL_DIRECTIONS: u8 = 0xFF;

// A meter as it comes from the factory, with what the bench gives it.
#[tactic(auto, unfolding(crate::specs::Record::made))]
pub fn make(
    address: u8,
    minutes: u8,
    telemetry: Telemetry,
    clock: DateTime,
    season: Season,
) -> Result<Record, RecordError>
    ensures { result ≡ made address minutes telemetry clock season }
{
    let r = new_record(address, minutes, telemetry, clock, season);
    if !is_within(r) {
        return Err(RecordError::OutOfRange);
    }
    Ok(r)
}

#[tactic(auto, unfolding(crate::specs::Record::fresh))]
fn new_record(
    address: u8,
    minutes: u8,
    telemetry: Telemetry,
    clock: DateTime,
    season: Season,
) -> Record
    ensures { result ≡ fresh address minutes telemetry clock season }
{
    Record {
        address,
        protection: meter_clock::shut(),
        passwords: Passwords {
            main: Password(FACTORY_PASSWORD),
            auxiliary: Password(FACTORY_PASSWORD),
        },
        time: Time {
            clock,
            season,
            summer: SwitchDate::Automatic,
            winter: SwitchDate::Automatic,
        },
        telemetry,
        mask: DisplayMask {
            parameters: ALL_PARAMETERS,
            tariffs: ALL_TARIFFS,
            directions: ALL_DIRECTIONS,
        },
        active: Phases {
            a: 0.0,
            b: 0.0,
            c: 0.0,
        },
        reactive: Phases {
            a: 0.0,
            b: 0.0,
            c: 0.0,
        },
        minutes,
        next: 0,
        ratios: Ratios { ki: 1, ku: 1 },
    }
}
