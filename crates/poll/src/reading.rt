// A Mercury 206's reading, on standard output.
use mercury::units::TensOfWattHours;
use mercury::{DecodeError, Decoded, Frequency, Load, Tariffs};
use poll_words::say;

const TENTH: u64 = 10;

const HUNDREDTH: u64 = 100;

// Whether there was one; where not, what was met is said.
pub fn show(rt: HostRuntime, device: &[u8], d: Result<Decoded, DecodeError>) -> bool {
    match d {
        Ok(Decoded::Tariffs(t)) => tariffs(rt, t),
        Ok(Decoded::Load(l)) => load(rt, l),
        Ok(Decoded::Frequency(f)) => frequency(rt, f),
        Err(DecodeError::Malformed(fault)) => say::malformed(rt, device, fault),
        Err(DecodeError::NotDecimal) => say::refused(rt, device, refusal::MERCURY_DIGIT),
    }
}

fn tariffs(rt: HostRuntime, t: Tariffs) -> bool {
    tariff(rt, b"tariff 1: ", t.first);
    tariff(rt, b"tariff 2: ", t.second);
    tariff(rt, b"tariff 3: ", t.third);
    tariff(rt, b"tariff 4: ", t.fourth);
    true
}

// Ten watt-hours are a hundredth of a kilowatt-hour.
fn tariff(rt: HostRuntime, name: &[u8], energy: TensOfWattHours) {
    put(rt, name);
    hundredths(rt, u64::from(energy.0));
    put(rt, b" kWh\n");
}

fn load(rt: HostRuntime, l: Load) -> bool {
    tenths(rt, u64::from(l.voltage.0));
    put(rt, b" V\n");
    hundredths(rt, u64::from(l.current.0));
    put(rt, b" A\n");
    decimal(rt, u64::from(l.power.0));
    put(rt, b" W\n");
    true
}

fn frequency(rt: HostRuntime, f: Frequency) -> bool {
    hundredths(rt, u64::from(f.frequency.0));
    put(rt, b" Hz\n");
    true
}

fn tenths(rt: HostRuntime, n: u64) {
    decimal(rt, n / TENTH);
    put(rt, b".");
    decimal(rt, n % TENTH);
}

fn hundredths(rt: HostRuntime, n: u64) {
    decimal(rt, n / HUNDREDTH);
    put(rt, b".");
    decimal(rt, n / TENTH % TENTH);
    decimal(rt, n % TENTH);
}

// What cannot be written is left out.
fn put(rt: HostRuntime, bytes: &[u8]) {
    let _ = rt.stdout().write_all(bytes);
}

fn decimal(rt: HostRuntime, n: u64) {
    let _ = rt.stdout().print(n);
}
