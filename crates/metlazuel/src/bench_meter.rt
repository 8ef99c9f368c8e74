// The bench meter for C. Its record is 89 bytes, which `metlazuel_meter_make` fills and the other calls read and renew; its store 32,736,
// at first all zero. A call that is refused leaves the record's bytes as they were, and bytes that are no record count as one outside its
// ranges: 28. Here stand the bench's own calls; `answer_call` has a frame answered.
ghost use Rattle.std.specs.Prelude.{◌≡◌, ◌*◌};
ghost use Rattle.refusal.specs.Outcome.{outcome};
ghost use Rattle.meter_record_bytes.specs.Record.{record_of};
ghost use Rattle.metlazuel.specs.Bits.{float_from};
ghost use Rattle.metlazuel.specs.MeterCalls.{telemetry_from, clock_from, phases_from, ratios_from, made_in, second_in, powers_in, ratios_in};
ghost use Rattle.metlazuel.specs.MeterCalls.{key, row, slice_in, bytes_after, bench_for_c, make_for_c, put_for_c};

use calendar::{Date, DateTime};
use meter_record::{Ratios, Record, RecordError};
use meter_record_bytes::RECORD_BYTES;
use refusal::Numbered;
use slots::Key;
use wire_values::{Phases, Telemetry};

// The bits of a float, without its sign, from which on it is an infinity or no number.
const INFINITY: u32 = 0x7F80_0000;

const SIGN: u32 = 0x8000_0000;

// The bytes of the record that an answer left, if it left one.
#[tactic(auto, unfolding(crate::specs::MeterCalls::bytes_after))]
fn put_done(meter: &mut [u8], answer: Result<Record, RecordError>)
    ensures { meter.new ≡ bytes_after answer meter.old }
{
    if let Ok(r) = answer {
        meter_record_bytes::put_record(meter, r);
    }
}

fn keep(meter: &mut [u8], answer: Result<Record, RecordError>) -> u8
    ensures { outcome result meter.new ≡ bench_for_c answer meter.old }
{
    put_done(meter, answer);
    answer.number()
}

#[tactic(auto, unfolding(crate::specs::MeterCalls::made_in))]
fn made_in(
    address: u8,
    minutes: u8,
    telemetry: Telemetry,
    clock: DateTime,
    season: u8,
) -> Result<Record, RecordError>
    ensures { result ≡ made_in address minutes telemetry clock season }
{
    let s = meter_record_bytes::season_of(season).ok_or(RecordError::OutOfRange)?;
    meter_record::make(address, minutes, telemetry, clock, s)
}

// uint8_t metlazuel_meter_make(uint8_t *meter, size_t n, uint8_t address, uint8_t minutes, uint32_t k, uint16_t ke, uint16_t reserve,
//     uint8_t year, uint8_t month, uint8_t day, uint8_t hour, uint8_t minute, uint8_t second, uint8_t season)
//
// A meter from the factory; `year` counts from 2000, `season` is 0 for winter and 1 for summer.
#[tactic(auto, unfolding(crate::specs::MeterCalls::make_for_c))]
pub fn metlazuel_meter_make(
    meter: &mut [u8],
    address: u8,
    minutes: u8,
    k: u32,
    ke: u16,
    reserve: u16,
    year: u8,
    month: u8,
    day: u8,
    hour: u8,
    minute: u8,
    second: u8,
    season: u8,
) -> u8
    ensures { outcome result meter.new
        ≡ make_for_c (made_in address minutes (telemetry_from k ke reserve) (clock_from year month day hour minute second) season) meter.old }
{
    let telemetry = Telemetry { k, ke, reserve };
    let clock = DateTime {
        date: Date { year, month, day },
        hour,
        minute,
        second,
    };
    if meter.len() < RECORD_BYTES {
        return refusal::TOO_SHORT;
    }
    keep(meter, made_in(address, minutes, telemetry, clock, season))
}

// This and the three like it hand on what each call has: a second, powers, ratios, a slice. None by `ok_or` and `?`, which copy the record.
#[tactic(auto, unfolding(crate::specs::MeterCalls::second_in))]
fn second_in(read: Option<Record>) -> Result<Record, RecordError>
    ensures { result ≡ second_in read }
{
    let Some(r) = read else {
        return Err(RecordError::Unsound);
    };
    meter_record::pass_second(r)
}

// uint8_t metlazuel_meter_second(uint8_t *meter, size_t n)
//
// A second passes.
pub fn metlazuel_meter_second(meter: &mut [u8]) -> u8
    ensures { outcome result meter.new ≡ bench_for_c (second_in (record_of meter.old)) meter.old }
{
    let answer = second_in(meter_record_bytes::record_of(meter));
    keep(meter, answer)
}

#[tactic(auto, unfolding(crate::specs::MeterCalls::powers_in))]
fn powers_in(read: Option<Record>, parameter: u8, phases: Phases) -> Result<Record, RecordError>
    ensures { result ≡ powers_in read parameter phases }
{
    let Some(r) = read else {
        return Err(RecordError::Unsound);
    };
    meter_record::set_powers(r, parameter, phases)
}

// The float with these bits; the infinity for what is no number, which Rattle leaves open and which is out of bounds too.
fn float_from(bits: u32) -> f32
    ensures { result ≡ float_from bits }
{
    if bits % SIGN < INFINITY {
        f32::from_bits(bits)
    } else {
        f32::from_bits(INFINITY)
    }
}

// uint8_t metlazuel_meter_powers(uint8_t *meter, size_t n, uint8_t parameter, uint32_t a, uint32_t b, uint32_t c)
//
// Sets the active powers (parameter 8) or the reactive ones (9), each given as the bits of a 32-bit float.
pub fn metlazuel_meter_powers(meter: &mut [u8], parameter: u8, a: u32, b: u32, c: u32) -> u8
    ensures { outcome result meter.new ≡ bench_for_c (powers_in (record_of meter.old) parameter (phases_from a b c)) meter.old }
{
    let phases = Phases {
        a: float_from(a),
        b: float_from(b),
        c: float_from(c),
    };
    let answer = powers_in(meter_record_bytes::record_of(meter), parameter, phases);
    keep(meter, answer)
}

#[tactic(auto, unfolding(crate::specs::MeterCalls::ratios_in))]
fn ratios_in(read: Option<Record>, ratios: Ratios) -> Result<Record, RecordError>
    ensures { result ≡ ratios_in read ratios }
{
    let Some(r) = read else {
        return Err(RecordError::Unsound);
    };
    meter_record::set_ratios(r, ratios)
}

// uint8_t metlazuel_meter_ratios(uint8_t *meter, size_t n, uint32_t ki, uint32_t ku)
//
// Sets the ratios of the current and voltage transformers.
pub fn metlazuel_meter_ratios(meter: &mut [u8], ki: u32, ku: u32) -> u8
    ensures { outcome result meter.new ≡ bench_for_c (ratios_in (record_of meter.old) (ratios_from ki ku)) meter.old }
{
    let ratios = Ratios { ki, ku };
    let answer = ratios_in(meter_record_bytes::record_of(meter), ratios);
    keep(meter, answer)
}

#[tactic(auto, unfolding(crate::specs::MeterCalls::slice_in))]
fn slice_in(
    read: Option<Record>,
    store: &mut [u8],
    k: Key,
    counts: [u16; 4],
) -> Result<Record, RecordError>
    ensures { outcome result store.new ≡ slice_in read store.old k counts }
{
    let Some(r) = read else {
        return Err(RecordError::Unsound);
    };
    meter::put_slice(r, store, k, counts)
}

// uint8_t metlazuel_meter_slice(uint8_t *meter, size_t n, uint8_t *store, size_t size, uint8_t month, uint8_t day, uint8_t number,
//     uint16_t eplus, uint16_t eminus, uint16_t rplus, uint16_t rminus)
//
// Puts a slice into the store.
pub fn metlazuel_meter_slice(
    meter: &mut [u8],
    store: &mut [u8],
    month: u8,
    day: u8,
    number: u8,
    eplus: u16,
    eminus: u16,
    rplus: u16,
    rminus: u16,
) -> u8
    ensures { outcome result (meter.new, store.new)
        ≡ put_for_c (slice_in (record_of meter.old) store.old (key month day number) (row eplus eminus rplus rminus)) meter.old }
{
    let key = Key { month, day, number };
    let read = meter_record_bytes::record_of(meter);
    let answer = slice_in(read, store, key, [eplus, eminus, rplus, rminus]);
    keep(meter, answer)
}
