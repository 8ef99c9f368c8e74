// `power`: the powers of parameter 8 or 9.
ghost use Rattle.std.specs.Prelude.{◌≡◌};
ghost use Rattle.console_meter.specs.SetLines.{power_in, finite, phases_in, power_line};

use console::BYTE;
use meter_record::{Record, RecordError};
use wire_values::Phases;

// How many bytes the eight digits of a float are.
const FLOAT: usize = 4;

// PARAMETER A B C
#[tactic(auto, unfolding(crate::specs::SetLines::power_line, crate::specs::SetLines::powers_of))]
pub fn power(line: &[u8], r: Record) -> Option<Result<Record, RecordError>>
    ensures { result ≡ power_line r line.now }
{
    if console::spaces(line) != 4 || !console::are_numbers(line, &[BYTE]) {
        return None;
    }
    let Some(phases) = phases_in(line)? else {
        return Some(Err(RecordError::OutOfRange));
    };
    Some(meter_record::set_powers(r, console::byte(line, 1), phases))
}

// The floats of three words: none where a word is no float, and a none in it where one is not finite.
#[tactic(auto, unfolding(crate::specs::SetLines::phases_in))]
fn phases_in(line: &[u8]) -> Option<Option<Phases>>
    ensures { result ≡ phases_in (power_in line.now 2) (power_in line.now 3) (power_in line.now 4) }
{
    let a = power_word(line, 2)?;
    let b = power_word(line, 3)?;
    let c = power_word(line, 4)?;
    Some(finite(a, b, c))
}

#[tactic(auto, unfolding(crate::specs::SetLines::finite))]
fn finite(a: Option<f32>, b: Option<f32>, c: Option<f32>) -> Option<Phases>
    ensures { result ≡ finite a b c }
{
    Some(Phases {
        a: a?,
        b: b?,
        c: c?,
    })
}

// The eight digits of a float's bits, the highest first: none where the word is no such. What it reads may be no finite float.
#[tactic(auto, unfolding(crate::specs::SetLines::power_in, crate::specs::SetLines::power_read))]
fn power_word(line: &[u8], k: usize) -> Option<Option<f32>>
    ensures { result ≡ power_in line.now k }
{
    let mut bytes = [0u8; FLOAT];
    if console::read_bytes(console::word(line, k), &mut bytes)? != FLOAT {
        return None;
    }
    let low_first = [bytes[3], bytes[2], bytes[1], bytes[0]];
    Some(wire_values::power_of(&low_first, 0))
}
