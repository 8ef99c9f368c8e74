// `mercury`: the figures of the bench's meter.
ghost use Rattle.std.specs.Prelude.{◌≡◌};
ghost use Rattle.console_mercury.specs.Setting.{first_meter, rest_in, tariffs_in, load_in, meter_in, meter_line};

use console::{LONG, SHORT, long, short};
use mercury::units::{
    HundredthsOfAmpere, HundredthsOfHertz, Rest, TensOfWattHours, TenthsOfVolt, Watts,
};
use mercury::{Frequency, Load, Tariffs};
use mercury_bench::Meter;

#[derive(Clone, Copy, PartialEq, Eq)]
pub enum LineError {
    // A figure above its digits.
    OutOfRange,
    // No line of the console's.
    Unread,
}

// The words behind the first: ADDRESS T1 T2 T3 T4 VOLTAGE CURRENT POWER FREQUENCY REST.
const WORDS: usize = 10;

const REST: usize = 10;

// How many bytes the 14 digits of REST are.
const REST_BYTES: usize = 7;

// The console's first Mercury 206.
pub fn first() -> Meter
    ensures { result ≡ first_meter }
{
    Meter {
        address: 1234,
        tariffs: Tariffs {
            first: TensOfWattHours(0),
            second: TensOfWattHours(0),
            third: TensOfWattHours(0),
            fourth: TensOfWattHours(0),
        },
        load: Load {
            voltage: TenthsOfVolt(0),
            current: HundredthsOfAmpere(0),
            power: Watts(0),
        },
        frequency: Frequency {
            frequency: HundredthsOfHertz(0),
            rest: Rest(0, 0, 0, 0, 0, 0, 0),
        },
    }
}

#[tactic(auto, unfolding(crate::specs::Setting::meter_line, crate::specs::Setting::with_rest, crate::specs::Setting::checked))]
pub fn set(line: &[u8]) -> Result<Meter, LineError>
    ensures { result ≡ meter_line line.now }
{
    let most = [LONG, LONG, LONG, LONG, LONG, SHORT, SHORT, LONG, SHORT];
    if console::spaces(line) != WORDS || !console::are_numbers(line, &most) {
        return Err(LineError::Unread);
    }
    let meter = meter_in(line, rest_word(line).ok_or(LineError::Unread)?);
    if !mercury_bench::is_within(meter) {
        return Err(LineError::OutOfRange);
    }
    Ok(meter)
}

fn meter_in(line: &[u8], rest: Rest) -> Meter
    ensures { result ≡ meter_in line.now rest }
{
    Meter {
        address: long(line, 1),
        tariffs: tariffs_in(line),
        load: load_in(line),
        frequency: Frequency {
            frequency: HundredthsOfHertz(short(line, 9)),
            rest,
        },
    }
}

fn tariffs_in(line: &[u8]) -> Tariffs
    ensures { result ≡ tariffs_in line.now }
{
    Tariffs {
        first: TensOfWattHours(long(line, 2)),
        second: TensOfWattHours(long(line, 3)),
        third: TensOfWattHours(long(line, 4)),
        fourth: TensOfWattHours(long(line, 5)),
    }
}

fn load_in(line: &[u8]) -> Load
    ensures { result ≡ load_in line.now }
{
    Load {
        voltage: TenthsOfVolt(short(line, 6)),
        current: HundredthsOfAmpere(short(line, 7)),
        power: Watts(long(line, 8)),
    }
}

#[tactic(auto, unfolding(crate::specs::Setting::rest_in, crate::specs::Setting::rest_read))]
fn rest_word(line: &[u8]) -> Option<Rest>
    ensures { result ≡ rest_in line.now }
{
    let mut b = [0u8; REST_BYTES];
    if console::read_bytes(console::word(line, REST), &mut b)? != REST_BYTES {
        return None;
    }
    Some(Rest(b[0], b[1], b[2], b[3], b[4], b[5], b[6]))
}
