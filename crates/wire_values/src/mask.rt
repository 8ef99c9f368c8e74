// Parameter 35: what the display shows.
ghost use Rattle.std.specs.Prelude.{◌≡◌};
ghost use Rattle.wire_values.specs.Mask.{mask_of, mask_bytes};
ghost use Rattle.byte_numbers.specs.Place.{written};

#[derive(Clone, Copy, PartialEq, Eq)]
pub struct DisplayMask {
    pub parameters: u32,
    pub tariffs: u8,
    pub directions: u8,
}

#[tactic(auto, unfolding(crate::specs::Mask::mask_of))]
pub fn display_mask(bytes: &[u8]) -> DisplayMask
    ensures { result ≡ mask_of bytes.now }
{
    DisplayMask {
        parameters: byte_numbers::u32_at(bytes, 0),
        tariffs: byte_numbers::byte_at(bytes, 4),
        directions: byte_numbers::byte_at(bytes, 5),
    }
}

pub fn put_display_mask(out: &mut [u8], m: DisplayMask)
    ensures { out.new ≡ written out.old 0 (mask_bytes m) }
{
    byte_numbers::put_u32(out, 0, m.parameters);
    byte_numbers::put_byte(out, 4, m.tariffs);
    byte_numbers::put_byte(out, 5, m.directions);
}
