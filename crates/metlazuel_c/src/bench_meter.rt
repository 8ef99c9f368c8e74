// The bench meter for C.
ghost use Rattle.std.specs.Prelude.{◌≡◌};
ghost use Rattle.refusal.specs.Outcome.{outcome};
ghost use Rattle.meter_record_bytes.specs.Record.{record_of};
ghost use Rattle.metlazuel.specs.MeterCalls.{telemetry_from, clock_from, phases_from, ratios_from, made_in, second_in, powers_in, ratios_in};
ghost use Rattle.metlazuel.specs.MeterCalls.{key, row, slice_in, bench_for_c, make_for_c, put_for_c};

#[unsafe(no_mangle)]
pub extern "C" fn metlazuel_meter_make(
    meter: &mut [u8],
    address: u8,
    minutes: u8,
    k: u32,
    ke: u16,
    reserve: u16,
    year: u8,
    month: u8,
    day: u8,
    hour: u8,
    minute: u8,
    second: u8,
    season: u8,
) -> u8
    ensures { outcome result meter.new
        ≡ make_for_c (made_in address minutes (telemetry_from k ke reserve) (clock_from year month day hour minute second) season) meter.old }
{
    metlazuel::metlazuel_meter_make(
        meter, address, minutes, k, ke, reserve, year, month, day, hour, minute, second, season,
    )
}

#[unsafe(no_mangle)]
pub extern "C" fn metlazuel_meter_second(meter: &mut [u8]) -> u8
    ensures { outcome result meter.new ≡ bench_for_c (second_in (record_of meter.old)) meter.old }
{
    metlazuel::metlazuel_meter_second(meter)
}

#[unsafe(no_mangle)]
pub extern "C" fn metlazuel_meter_powers(
    meter: &mut [u8],
    parameter: u8,
    a: u32,
    b: u32,
    c: u32,
) -> u8
    ensures { outcome result meter.new ≡ bench_for_c (powers_in (record_of meter.old) parameter (phases_from a b c)) meter.old }
{
    metlazuel::metlazuel_meter_powers(meter, parameter, a, b, c)
}

#[unsafe(no_mangle)]
pub extern "C" fn metlazuel_meter_ratios(meter: &mut [u8], ki: u32, ku: u32) -> u8
    ensures { outcome result meter.new ≡ bench_for_c (ratios_in (record_of meter.old) (ratios_from ki ku)) meter.old }
{
    metlazuel::metlazuel_meter_ratios(meter, ki, ku)
}

#[unsafe(no_mangle)]
pub extern "C" fn metlazuel_meter_slice(
    meter: &mut [u8],
    store: &mut [u8],
    month: u8,
    day: u8,
    number: u8,
    eplus: u16,
    eminus: u16,
    rplus: u16,
    rminus: u16,
) -> u8
    ensures { outcome result (meter.new, store.new)
        ≡ put_for_c (slice_in (record_of meter.old) store.old (key month day number) (row eplus eminus rplus rminus)) meter.old }
{
    metlazuel::metlazuel_meter_slice(
        meter, store, month, day, number, eplus, eminus, rplus, rminus,
    )
}
