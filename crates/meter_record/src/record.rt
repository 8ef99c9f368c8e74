ghost use Rattle.std.specs.Prelude.{◌≡◌};
ghost use Rattle.meter_record.specs.Record.{error_number};

use meter_clock::{Protection, Time};
use refusal::Numbered;
use wire_values::{DisplayMask, Phases, Telemetry};

// Eight bytes as one number, the first of them lowest.
#[derive(Clone, Copy, PartialEq, Eq)]
pub struct Password(pub u64);

#[derive(Clone, Copy, PartialEq, Eq)]
pub struct Passwords {
    pub main: Password,
    pub auxiliary: Password,
}

// The ratios of the transformers before the meter, of current and of voltage.
#[derive(Clone, Copy, PartialEq, Eq)]
pub struct Ratios {
    pub ki: u32,
    pub ku: u32,
}

#[derive(Clone, Copy)]
pub struct Record {
    pub address: u8,
    pub protection: Protection,
    pub passwords: Passwords,
    pub time: Time,
    pub telemetry: Telemetry,
    pub mask: DisplayMask,
    pub active: Phases,
    pub reactive: Phases,
    // The interval, 15 or 30.
    pub minutes: u8,
    // The store's next place.
    pub next: u16,
    pub ratios: Ratios,
}

// What the bench's own calls answer.
#[derive(Clone, Copy, PartialEq, Eq)]
pub enum RecordError {
    OutOfRange,
    // A record outside its ranges was handed in.
    Unsound,
}

impl Numbered for RecordError {
    // Document 01's number.
    ghost number_of = { error_number };

    fn number(&self) -> u8 {
        match self {
            RecordError::OutOfRange => refusal::OUT_OF_RANGE,
            RecordError::Unsound => refusal::UNSOUND,
        }
    }
}
