// Parameter 24: the telemetry outputs' pulses and the weight of a count.
ghost use Rattle.std.specs.Prelude.{◌≡◌};
ghost use Rattle.wire_values.specs.Telemetry.{telemetry_of, telemetry_bytes};
ghost use Rattle.byte_numbers.specs.Place.{written};

#[derive(Clone, Copy, PartialEq, Eq)]
pub struct Telemetry {
    // Pulses for a kilowatt-hour.
    pub k: u32,
    // Milliwatt-hours for a count.
    pub ke: u16,
    // Kept as written.
    pub reserve: u16,
}

#[tactic(auto, unfolding(crate::specs::Telemetry::telemetry_of))]
pub fn telemetry_of(bytes: &[u8]) -> Telemetry
    ensures { result ≡ telemetry_of bytes.now }
{
    Telemetry {
        k: byte_numbers::u32_at(bytes, 0),
        ke: byte_numbers::u16_at(bytes, 4),
        reserve: byte_numbers::u16_at(bytes, 6),
    }
}

pub fn put_telemetry(out: &mut [u8], t: Telemetry)
    ensures { out.new ≡ written out.old 0 (telemetry_bytes t) }
{
    byte_numbers::put_u32(out, 0, t.k);
    byte_numbers::put_u16(out, 4, t.ke);
    byte_numbers::put_u16(out, 6, t.reserve);
}
