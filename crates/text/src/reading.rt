// Numbers read from text.
ghost use Rattle.std.specs.Prelude.{◌≡◌};
ghost use Rattle.text.specs.Reading.{number_of_text};

// The most digits that a number of 64 bits has.
const LONGEST: usize = 20;

const ZERO: u8 = 48;

const NINE: u8 = 57;

// The number that the bytes of a text are: 1 to 20 digits, no sign. Leading zeros are taken.
pub fn number_of(text: &[u8]) -> Option<u64>
    ensures { result ≡ number_of_text text.now }
{
    if text.is_empty() || LONGEST < text.len() {
        return None;
    }
    let mut value: u64 = 0;
    for &byte in text {
        if byte < ZERO || NINE < byte {
            return None;
        }
        value = value.checked_mul(10)?.checked_add((byte - ZERO) as u64)?;
    }
    Some(value)
}
