// Parameter 36 as function 4 reads it: the four energies of a slice in kilowatt-hours, each a 32-bit float.
//
// A float is handed on as its bits: nothing is worked out with it.
ghost use Rattle.std.specs.Prelude.{◌≡◌};
ghost use Rattle.wire_values.specs.Displayed.{energies_in, are_finite, energies_of, energies_bytes};
ghost use Rattle.byte_numbers.specs.Place.{written};

use crate::power::is_finite;

// Kilowatt-hours, as the bits of a float.
#[derive(Clone, Copy, PartialEq, Eq)]
pub struct KilowattHours(pub u32);

#[derive(Clone, Copy, PartialEq, Eq)]
pub struct Energies {
    pub e_plus: KilowattHours,
    pub e_minus: KilowattHours,
    pub r_plus: KilowattHours,
    pub r_minus: KilowattHours,
}

// The energies at the front of a part.
#[tactic(auto, unfolding(crate::specs::Displayed::energies_of))]
pub fn energies_of(bytes: &[u8]) -> Option<Energies>
    ensures { result ≡ energies_of bytes.now }
{
    let e = energies_in(bytes);
    if are_finite(e) { Some(e) } else { None }
}

#[tactic(auto, unfolding(crate::specs::Displayed::energies_in))]
fn energies_in(bytes: &[u8]) -> Energies
    ensures { result ≡ energies_in bytes.now }
{
    Energies {
        e_plus: KilowattHours(byte_numbers::u32_at(bytes, 0)),
        e_minus: KilowattHours(byte_numbers::u32_at(bytes, 4)),
        r_plus: KilowattHours(byte_numbers::u32_at(bytes, 8)),
        r_minus: KilowattHours(byte_numbers::u32_at(bytes, 12)),
    }
}

// All four are numbers.
#[tactic(auto, unfolding(crate::specs::Displayed::are_finite))]
fn are_finite(e: Energies) -> bool
    ensures { result ≡ are_finite e }
{
    is_finite(e.e_plus.0)
        && is_finite(e.e_minus.0)
        && is_finite(e.r_plus.0)
        && is_finite(e.r_minus.0)
}

pub fn put_energies(out: &mut [u8], e: Energies)
    ensures { out.new ≡ written out.old 0 (energies_bytes e) }
{
    byte_numbers::put_u32(out, 0, e.e_plus.0);
    byte_numbers::put_u32(out, 4, e.e_minus.0);
    byte_numbers::put_u32(out, 8, e.r_plus.0);
    byte_numbers::put_u32(out, 12, e.r_minus.0);
}
