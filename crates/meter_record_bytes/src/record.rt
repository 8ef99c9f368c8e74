// The whole record.
ghost use Rattle.std.specs.Prelude.{◌≡◌};
ghost use Rattle.byte_numbers.specs.Place.{written};
ghost use Rattle.wire_values.specs.Mask.{mask_bytes};
ghost use Rattle.wire_values.specs.Telemetry.{telemetry_bytes};
ghost use Rattle.meter_record_bytes.specs.Record.{access_bytes, setting_bytes, bench_bytes, record_bytes, passwords_in};
ghost use Rattle.meter_record_bytes.specs.Record.{record_with, record_in, record_of};

use crate::level::{level_byte, level_of};
use crate::time::{put_time, time_of};
use meter_clock::{Level, Protection, Time};
use meter_record::{Password, Passwords, Ratios, Record};
use wire_values::{DisplayMask, Phases, Telemetry};

pub const RECORD_BYTES: usize = 89;

// Where each thing stands.
const ADDRESS: usize = 0;

const LEVEL: usize = 1;

const LEFT: usize = 2;

const MAIN_PASSWORD: usize = 3;

const AUXILIARY_PASSWORD: usize = 11;

const CLOCK: usize = 19;

const TELEMETRY: usize = 40;

const MASK: usize = 48;

const ACTIVE: usize = 54;

const REACTIVE: usize = 66;

const MINUTES: usize = 78;

const NEXT: usize = 79;

const KI: usize = 81;

const KU: usize = 85;

pub fn put_record(out: &mut [u8], r: Record)
    ensures { out.new ≡ written out.old 0 (record_bytes r) }
{
    put_access(out, r);
    put_settings(out, r);
    put_bench(out, r);
}

// The address, the level with its seconds, and the passwords.
fn put_access(out: &mut [u8], r: Record)
    ensures { out.new ≡ written out.old 0 (access_bytes r) }
{
    let head = [r.address, level_byte(r.protection.level), r.protection.left];
    byte_numbers::put_bytes(out, ADDRESS, &head);
    byte_numbers::put_u64(out, MAIN_PASSWORD, r.passwords.main.0);
    byte_numbers::put_u64(out, AUXILIARY_PASSWORD, r.passwords.auxiliary.0);
}

// The clock and its seasons, the telemetry, the mask.
fn put_settings(out: &mut [u8], r: Record)
    ensures { out.new ≡ written out.old 19 (setting_bytes r) }
{
    put_time(out, CLOCK, r.time);
    put_telemetry(out, TELEMETRY, r.telemetry);
    put_mask(out, MASK, r.mask);
}

// The powers, the interval, the store's next place, the ratios.
fn put_bench(out: &mut [u8], r: Record)
    ensures { out.new ≡ written out.old 54 (bench_bytes r) }
{
    wire_values::put_phases(out, ACTIVE, r.active);
    wire_values::put_phases(out, REACTIVE, r.reactive);
    byte_numbers::put_byte(out, MINUTES, r.minutes);
    byte_numbers::put_u16(out, NEXT, r.next);
    byte_numbers::put_u32(out, KI, r.ratios.ki);
    byte_numbers::put_u32(out, KU, r.ratios.ku);
}

// A figure in the part that begins at a place.
fn put_telemetry(out: &mut [u8], at: usize, t: Telemetry)
    ensures { out.new ≡ written out.old at (telemetry_bytes t) }
{
    if at < out.len() {
        wire_values::put_telemetry(&mut out[at..], t);
    }
}

fn put_mask(out: &mut [u8], at: usize, m: DisplayMask)
    ensures { out.new ≡ written out.old at (mask_bytes m) }
{
    if at < out.len() {
        wire_values::put_display_mask(&mut out[at..], m);
    }
}

#[tactic(auto, unfolding(crate::specs::Record::record_of))]
pub fn record_of(bytes: &[u8]) -> Option<Record>
    ensures { result ≡ record_of bytes.now }
{
    if bytes.len() == RECORD_BYTES {
        record_in(bytes)
    } else {
        None
    }
}

// The rest may be any bytes.
#[tactic(auto, unfolding(crate::specs::Record::record_in, crate::specs::Record::together))]
fn record_in(bytes: &[u8]) -> Option<Record>
    ensures { result ≡ record_in bytes.now }
{
    // Not by `?`, which copies each of them once more.
    let Some(level) = level_of(byte_numbers::byte_at(bytes, LEVEL)) else {
        return None;
    };
    let Some(time) = time_of(byte_numbers::tail(bytes, CLOCK)) else {
        return None;
    };
    let Some(active) = wire_values::phases_of(byte_numbers::tail(bytes, ACTIVE)) else {
        return None;
    };
    let Some(reactive) = wire_values::phases_of(byte_numbers::tail(bytes, REACTIVE)) else {
        return None;
    };
    Some(record_with(bytes, level, time, active, reactive))
}

#[tactic(auto, unfolding(crate::specs::Record::record_with))]
fn record_with(bytes: &[u8], level: Level, time: Time, active: Phases, reactive: Phases) -> Record
    ensures { result ≡ record_with bytes.now level time active reactive }
{
    Record {
        address: byte_numbers::byte_at(bytes, ADDRESS),
        protection: Protection {
            level,
            left: byte_numbers::byte_at(bytes, LEFT),
        },
        passwords: passwords_in(bytes),
        time,
        telemetry: wire_values::telemetry_of(byte_numbers::tail(bytes, TELEMETRY)),
        mask: wire_values::display_mask(byte_numbers::tail(bytes, MASK)),
        active,
        reactive,
        minutes: byte_numbers::byte_at(bytes, MINUTES),
        next: byte_numbers::u16_at(bytes, NEXT),
        ratios: Ratios {
            ki: byte_numbers::u32_at(bytes, KI),
            ku: byte_numbers::u32_at(bytes, KU),
        },
    }
}

fn passwords_in(bytes: &[u8]) -> Passwords
    ensures { result ≡ passwords_in bytes.now }
{
    Passwords {
        main: Password(byte_numbers::u64_at(bytes, MAIN_PASSWORD)),
        auxiliary: Password(byte_numbers::u64_at(bytes, AUXILIARY_PASSWORD)),
    }
}
