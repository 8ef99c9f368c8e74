// `slice`: a slice put into the store.
ghost use Rattle.std.specs.Prelude.{◌≡◌};
ghost use Rattle.refusal.specs.Outcome.{outcome};
ghost use Rattle.console_meter.specs.SetLines.{key_in, counts_in, slice_line};

use console::{BYTE, SHORT, byte, short};
use meter_record::{Record, RecordError};
use slots::Key;

// MONTH DAY NUMBER E+ E- R+ R-
#[tactic(auto, unfolding(crate::specs::SetLines::slice_line, crate::specs::SetLines::put_in))]
pub fn slice(line: &[u8], store: &mut [u8], r: Record) -> Option<Result<Record, RecordError>>
    ensures { outcome result store.new ≡ slice_line r line.now store.old }
{
    let form = [BYTE, BYTE, BYTE, SHORT, SHORT, SHORT, SHORT];
    if !console::is_form(line, &form) {
        return None;
    }
    Some(meter::put_slice(r, store, key(line), counts(line)))
}

fn key(line: &[u8]) -> Key
    ensures { result ≡ key_in line.now }
{
    Key {
        month: byte(line, 1),
        day: byte(line, 2),
        number: byte(line, 3),
    }
}

fn counts(line: &[u8]) -> [u16; 4]
    ensures { result ≡ counts_in line.now }
{
    [
        short(line, 4),
        short(line, 5),
        short(line, 6),
        short(line, 7),
    ]
}
