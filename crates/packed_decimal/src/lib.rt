// Packed decimal: two decimal digits to a byte, the high ones first, over any number of bytes.
//
// Both functions are total: past the end nothing is read and nothing is stored. What was put reads back, and what was read is put as it
// stood: proofs/PackedLaws.antt has both, once for every number of bytes.
#![tactic(auto)]

ghost use Rattle.std.specs.Prelude.{◌≡◌, take, ◌+◌, [], ◌∷◌};
ghost use Rattle.byte_numbers.specs.Place.{written};
ghost use Rattle.packed_decimal.specs.Packed.{pair_of, packed_of, decimal_of, decimal_at};

// The most bytes whose digits a number of 32 bits is sure to hold.
const MOST_BYTES: usize = 4;

const LARGEST_DIGIT: u8 = 9;

// The number of `width` bytes from a place on.
pub fn number_at(s: &[u8], at: usize, width: usize) -> Option<u32>
    ensures { result ≡ decimal_at s.now at width }
{
    number_of(front(byte_numbers::tail(s, at), width))
}

// The first n bytes, or all where there are fewer.
fn front(s: &[u8], n: usize) -> &[u8]
    ensures { result.now ≡ take n s.now }
{
    if n < s.len() { &s[..n] } else { s }
}

fn number_of(bytes: &[u8]) -> Option<u32>
    ensures { result ≡ decimal_of bytes.now }
{
    if MOST_BYTES < bytes.len() {
        return None;
    }
    let mut number: u32 = 0;
    for &byte in bytes {
        if LARGEST_DIGIT < byte / 16 || LARGEST_DIGIT < byte % 16 {
            return None;
        }
        number = number * 100 + ((byte / 16 * 10 + byte % 16) as u32);
    }
    Some(number)
}

// Puts the lowest digits of a number into `width` bytes from a place on.
pub fn put_number(out: &mut [u8], at: usize, width: usize, number: u32)
    ensures { out.new ≡ written out.old at (packed_of width number) }
{
    let mut rest = number;
    // From the last byte to the first, as the digits come off the number.
    for i in (0..width).rev() {
        put_at(out, at, i, pair(rest % 100));
        rest /= 100;
    }
}

// A byte i places behind a place.
#[tactic(auto, unfolding(byte_numbers::specs::Place::written))]
fn put_at(out: &mut [u8], at: usize, i: usize, byte: u8)
    ensures { out.new ≡ written out.old (at + i) (byte ∷ []) }
{
    if at < out.len() && i < out.len() - at {
        out[at + i] = byte;
    }
}

// The byte of two digits; a number above 99 counts as its lowest two.
fn pair(n: u32) -> u8
    ensures { result ≡ pair_of n }
{
    (n / 10 % 10 * 16 + n % 10) as u8
}
