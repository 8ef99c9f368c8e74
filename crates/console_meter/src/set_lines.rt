// A line that sets the bench meter, told by its first word.
ghost use Rattle.std.specs.Prelude.{◌≡◌};
ghost use Rattle.refusal.specs.Outcome.{outcome};
ghost use Rattle.console_meter.specs.SetLines.{set_line};

use meter_record::{Record, RecordError};

const METER: usize = 0;

const POWER: usize = 1;

const SLICE: usize = 2;

const SECOND: usize = 3;

const RATIO: usize = 4;

// None where it is no line of the console's.
#[tactic(auto, unfolding(crate::specs::SetLines::set_line, crate::specs::SetLines::set_by, text::specs::Ascii::ascii))]
pub fn set(line: &[u8], store: &mut [u8], r: Record) -> Option<Result<Record, RecordError>>
    ensures { outcome result store.new ≡ set_line r line.now store.old }
{
    match console::place_of(console::word(line, 0), b"meter power slice second ratio") {
        METER => crate::making::meter(line, store),
        POWER => crate::power::power(line, r),
        SLICE => crate::slice::slice(line, store, r),
        SECOND => crate::seconds::second(line, r),
        RATIO => crate::ratio::ratio(line, r),
        _ => None,
    }
}
