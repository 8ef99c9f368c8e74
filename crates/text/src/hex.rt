// Bytes in hexadecimal digits.
ghost use Rattle.std.specs.Prelude.{◌≡◌, ◌<◌};
ghost use Rattle.byte_numbers.specs.Place.{written};
ghost use Rattle.text.specs.Hex.{hex_digit, hex_text, hex_value};

const ZERO: u8 = 48;

const NINE: u8 = 57;

const UPPER_A: u8 = 65;

const UPPER_F: u8 = 70;

const LOWER_A: u8 = 97;

const LOWER_F: u8 = 102;

#[tactic(auto, unfolding(crate::specs::Hex::hex_digit))]
fn hex_digit(d: u8) -> u8
    requires { d < 16 }
    ensures { result ≡ hex_digit d }
{
    if d < 10 { ZERO + d } else { UPPER_A + (d - 10) }
}

// Two upper-case digits for each byte, without spaces.
pub fn put_hex(out: &mut [u8], at: usize, bytes: &[u8])
    ensures { out.new ≡ written out.old at (hex_text bytes.now) }
{
    let mut place = at;
    for &byte in bytes {
        if out.len() <= place {
            return;
        }
        byte_numbers::put_byte(out, place, hex_digit(byte / 16));
        byte_numbers::put_byte(out, place + 1, hex_digit(byte % 16));
        place += 2;
    }
}

// What a digit stands for; its letters may be of either case.
#[tactic(auto, unfolding(crate::specs::Hex::hex_value))]
pub fn hex_value(byte: u8) -> Option<u8>
    ensures { result ≡ hex_value byte }
{
    match byte {
        ZERO..=NINE => Some(byte - ZERO),
        UPPER_A..=UPPER_F => Some(byte - UPPER_A + 10),
        LOWER_A..=LOWER_F => Some(byte - LOWER_A + 10),
        _ => None,
    }
}
