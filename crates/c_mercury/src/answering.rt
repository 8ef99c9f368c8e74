// The bench's answers, from figures that C hands over one by one.
ghost use Rattle.std.specs.Prelude.{◌≡◌};
ghost use Rattle.refusal.specs.Outcome.{outcome};
ghost use Rattle.c_mercury.specs.Calls.{tariffs_from, load_from, rest_from, frequency_from, meter_from, answer_for_c};

use mercury::units::{
    HundredthsOfAmpere, HundredthsOfHertz, Rest, TensOfWattHours, TenthsOfVolt, Watts,
};
use mercury::{Frequency, Load, Tariffs};
use mercury_bench::Meter;
use refusal::Numbered;

// The reply goes to the front of `out` and its length to `length`; a refusal leaves both.
#[tactic(auto, unfolding(crate::specs::Calls::answer_for_c))]
pub fn answer(
    address: u32,
    first: u32,
    second: u32,
    third: u32,
    fourth: u32,
    voltage: u16,
    current: u16,
    power: u32,
    frequency: u16,
    rest: &[u8],
    request: &[u8],
    out: &mut [u8],
    length: &mut usize,
) -> u8
    ensures { outcome result (length.new, out.new)
        ≡ answer_for_c (meter_from address (tariffs_from first second third fourth) (load_from voltage current power) (frequency_from frequency rest.now))
        request.now out.old length.old }
{
    let m = Meter {
        address,
        tariffs: tariffs(first, second, third, fourth),
        load: load(voltage, current, power),
        frequency: frequency_of(frequency, rest),
    };
    let answered = mercury_bench::answer(m, request, out);
    *length = answered.unwrap_or(*length);
    answered.number()
}

fn tariffs(first: u32, second: u32, third: u32, fourth: u32) -> Tariffs
    ensures { result ≡ tariffs_from first second third fourth }
{
    Tariffs {
        first: TensOfWattHours(first),
        second: TensOfWattHours(second),
        third: TensOfWattHours(third),
        fourth: TensOfWattHours(fourth),
    }
}

fn load(voltage: u16, current: u16, power: u32) -> Load
    ensures { result ≡ load_from voltage current power }
{
    Load {
        voltage: TenthsOfVolt(voltage),
        current: HundredthsOfAmpere(current),
        power: Watts(power),
    }
}

fn frequency_of(frequency: u16, rest: &[u8]) -> Frequency
    ensures { result ≡ frequency_from frequency rest.now }
{
    Frequency {
        frequency: HundredthsOfHertz(frequency),
        rest: rest_of(rest),
    }
}

// The first seven bytes; one that is not lent counts as 0.
fn rest_of(rest: &[u8]) -> Rest
    ensures { result ≡ rest_from rest.now }
{
    Rest(
        byte_numbers::byte_at(rest, 0),
        byte_numbers::byte_at(rest, 1),
        byte_numbers::byte_at(rest, 2),
        byte_numbers::byte_at(rest, 3),
        byte_numbers::byte_at(rest, 4),
        byte_numbers::byte_at(rest, 5),
        byte_numbers::byte_at(rest, 6),
    )
}
