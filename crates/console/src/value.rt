// What a word stands for.
ghost use Rattle.std.specs.Prelude.{◌≡◌};
ghost use Rattle.refusal.specs.Outcome.{outcome};
ghost use Rattle.text.specs.Hex.{hex_value};
ghost use Rattle.text.specs.Reading.{number_of_text};
ghost use Rattle.console.specs.Line.{word_at};
ghost use Rattle.console.specs.Value.{byte_of, short_of, long_of, pair_of, bytes_read};

// The largest numbers of 8 bits, of 16 and of 32.
pub const BYTE: u64 = 255;

pub const SHORT: u64 = 65535;

pub const LONG: u64 = 4294967295;

// The number that a word of a line is.
pub fn number_word(line: &[u8], k: usize) -> Option<u64>
    ensures { result ≡ number_of_text (word_at k line.now) }
{
    text::number_of(crate::line::word(line, k))
}

// A number of one byte.
#[tactic(auto, unfolding(crate::specs::Value::up_to))]
pub fn byte_word(line: &[u8], k: usize) -> Option<u8>
    ensures { result ≡ byte_of (number_of_text (word_at k line.now)) }
{
    u8::try_from(number_word(line, k)?).ok()
}

// A number of 16 bits.
#[tactic(auto, unfolding(crate::specs::Value::up_to))]
pub fn short_word(line: &[u8], k: usize) -> Option<u16>
    ensures { result ≡ short_of (number_of_text (word_at k line.now)) }
{
    u16::try_from(number_word(line, k)?).ok()
}

// A number of 32 bits.
#[tactic(auto, unfolding(crate::specs::Value::up_to))]
pub fn long_word(line: &[u8], k: usize) -> Option<u32>
    ensures { result ≡ long_of (number_of_text (word_at k line.now)) }
{
    u32::try_from(number_word(line, k)?).ok()
}

// The bytes that pairs of digits are, at least one, to the front of out.
#[tactic(auto, unfolding(crate::specs::Value::bytes_read))]
pub fn read_bytes(digits: &[u8], out: &mut [u8]) -> Option<usize>
    ensures { outcome result out.new ≡ bytes_read digits.now out.old }
{
    let pairs = digits.len() / 2;
    if digits.len() % 2 != 0 || pairs == 0 {
        return None;
    }
    for i in 0..pairs {
        byte_numbers::put_byte(out, i, pair(digits[2 * i], digits[2 * i + 1])?);
    }
    Some(pairs)
}

// The byte of two digits.
#[tactic(auto, unfolding(crate::specs::Value::pair_of, crate::specs::Value::low_of))]
fn pair(high: u8, low: u8) -> Option<u8>
    ensures { result ≡ pair_of (hex_value high) (hex_value low) }
{
    let h = text::hex_value(high)?;
    let l = text::hex_value(low)?;
    if h < 16 && l < 16 {
        Some(h * 16 + l)
    } else {
        None
    }
}
