// The figures of a reading at the front of a data part: written, and read back.
ghost use Rattle.std.specs.Prelude.{◌≡◌, ◌<◌, ◌^◌, IfOk};
ghost use Rattle.std.specs.Option.{ok_or};
ghost use Rattle.byte_numbers.specs.Place.{written};
ghost use Rattle.packed_decimal.specs.Packed.{decimal_at};
ghost use Rattle.mercury.specs.Data.{tariffs_bytes, load_bytes, frequency_bytes, tariffs_of, load_of, frequency_of, rest_of};
ghost use Rattle.mercury.specs.declared.reply.DecodeError.TheVariants.{NotDecimal};

use crate::layout::{CURRENT_BYTES, FREQUENCY_BYTES, POWER_BYTES, TARIFF_BYTES, VOLTAGE_BYTES};
use crate::reply::{DecodeError, Decoded};
use crate::units::{
    Frequency, HundredthsOfAmpere, HundredthsOfHertz, Load, Rest, Tariffs, TensOfWattHours,
    TenthsOfVolt, Watts,
};

#[tactic(auto, using(crate::proofs::DataLaws::put_four))]
pub fn put_tariffs(out: &mut [u8], t: Tariffs)
    ensures { out.new ≡ written out.old 0 (tariffs_bytes t) }
{
    packed_decimal::put_number(out, 0, TARIFF_BYTES, t.first.0);
    packed_decimal::put_number(out, 4, TARIFF_BYTES, t.second.0);
    packed_decimal::put_number(out, 8, TARIFF_BYTES, t.third.0);
    packed_decimal::put_number(out, 12, TARIFF_BYTES, t.fourth.0);
}

#[tactic(auto, using(crate::proofs::DataLaws::put_three))]
pub fn put_load(out: &mut [u8], l: Load)
    ensures { out.new ≡ written out.old 0 (load_bytes l) }
{
    packed_decimal::put_number(out, 0, VOLTAGE_BYTES, l.voltage.0 as u32);
    packed_decimal::put_number(out, 2, CURRENT_BYTES, l.current.0 as u32);
    packed_decimal::put_number(out, 4, POWER_BYTES, l.power.0);
}

pub fn put_frequency(out: &mut [u8], f: Frequency)
    ensures { out.new ≡ written out.old 0 (frequency_bytes f) }
{
    let rest = f.rest;
    packed_decimal::put_number(out, 0, FREQUENCY_BYTES, f.frequency.0 as u32);
    byte_numbers::put_bytes(
        out,
        2,
        &[rest.0, rest.1, rest.2, rest.3, rest.4, rest.5, rest.6],
    );
}

#[tactic(auto, unfolding(crate::specs::Data::tariffs_of, crate::specs::Data::tariffs_by))]
pub fn tariffs_of(bytes: &[u8]) -> Result<Decoded, DecodeError>
    ensures { result ≡ tariffs_of bytes.now }
{
    Ok(Decoded::Tariffs(Tariffs {
        first: TensOfWattHours(figure_at(bytes, 0, TARIFF_BYTES)?),
        second: TensOfWattHours(figure_at(bytes, 4, TARIFF_BYTES)?),
        third: TensOfWattHours(figure_at(bytes, 8, TARIFF_BYTES)?),
        fourth: TensOfWattHours(figure_at(bytes, 12, TARIFF_BYTES)?),
    }))
}

#[tactic(auto, unfolding(crate::specs::Data::load_of, crate::specs::Data::load_by))]
pub fn load_of(bytes: &[u8]) -> Result<Decoded, DecodeError>
    ensures { result ≡ load_of bytes.now }
{
    Ok(Decoded::Load(Load {
        voltage: TenthsOfVolt(figure_at(bytes, 0, VOLTAGE_BYTES)? as u16),
        current: HundredthsOfAmpere(figure_at(bytes, 2, CURRENT_BYTES)? as u16),
        power: Watts(figure_at(bytes, 4, POWER_BYTES)?),
    }))
}

#[tactic(auto, unfolding(crate::specs::Data::frequency_of, crate::specs::Data::frequency_by))]
pub fn frequency_of(bytes: &[u8]) -> Result<Decoded, DecodeError>
    ensures { result ≡ frequency_of bytes.now }
{
    Ok(Decoded::Frequency(Frequency {
        frequency: HundredthsOfHertz(figure_at(bytes, 0, FREQUENCY_BYTES)? as u16),
        rest: rest_of(bytes),
    }))
}

// A figure of `width` bytes from a place on.
fn figure_at(bytes: &[u8], at: usize, width: usize) -> Result<u32, DecodeError>
    ensures read { result ≡ ok_or (decimal_at bytes.now at width) NotDecimal }
    ensures small { IfOk result (λ n. n < 100 ^ width) }
{
    packed_decimal::number_at(bytes, at, width).ok_or(DecodeError::NotDecimal)
}

// The seven bytes behind the frequency, whatever they are.
fn rest_of(bytes: &[u8]) -> Rest
    ensures { result ≡ rest_of bytes.now }
{
    Rest(
        byte_numbers::byte_at(bytes, 2),
        byte_numbers::byte_at(bytes, 3),
        byte_numbers::byte_at(bytes, 4),
        byte_numbers::byte_at(bytes, 5),
        byte_numbers::byte_at(bytes, 6),
        byte_numbers::byte_at(bytes, 7),
        byte_numbers::byte_at(bytes, 8),
    )
}
