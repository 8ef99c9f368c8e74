// `ratio`: the ratios of the transformers before the meter.
ghost use Rattle.std.specs.Prelude.{◌≡◌};
ghost use Rattle.console_meter.specs.SetLines.{ratios_in, ratio_line};

use console::LONG;
use meter_record::{Ratios, Record, RecordError};

// KI KU
#[tactic(auto, unfolding(crate::specs::SetLines::ratio_line))]
pub fn ratio(line: &[u8], r: Record) -> Option<Result<Record, RecordError>>
    ensures { result ≡ ratio_line r line.now }
{
    if !console::is_form(line, &[LONG, LONG]) {
        return None;
    }
    Some(meter_record::set_ratios(r, ratios(line)))
}

fn ratios(line: &[u8]) -> Ratios
    ensures { result ≡ ratios_in line.now }
{
    Ratios {
        ki: console::long(line, 1),
        ku: console::long(line, 2),
    }
}
