// The front of a frame: the address, high byte first, and the command.
ghost use Rattle.std.specs.Prelude.{◌≡◌};
ghost use Rattle.byte_numbers.specs.Place.{written};
ghost use Rattle.mercury.specs.Layout.{address_in, head_of};

#[tactic(auto, unfolding(crate::specs::Layout::head_of, crate::specs::Layout::address_bytes, byte_numbers::specs::Number::bytes_of))]
pub fn put_head(out: &mut [u8], address: u32, code: u8)
    ensures { out.new ≡ written out.old 0 (head_of address code) }
{
    let [first, second, third, fourth] = address.to_be_bytes();
    byte_numbers::put_bytes(out, 0, &[first, second, third, fourth, code]);
}

// The address in a frame; bytes that it lacks count as 0.
#[tactic(auto, unfolding(crate::specs::Layout::address_in, byte_numbers::specs::Number::number))]
pub fn address_in(frame: &[u8]) -> u32
    ensures { result ≡ address_in frame.now }
{
    u32::from_be_bytes([
        byte_numbers::byte_at(frame, 0),
        byte_numbers::byte_at(frame, 1),
        byte_numbers::byte_at(frame, 2),
        byte_numbers::byte_at(frame, 3),
    ])
}
