// `meter`: a new meter.
ghost use Rattle.std.specs.Prelude.{◌≡◌};
ghost use Rattle.refusal.specs.Outcome.{outcome};
ghost use Rattle.console_meter.specs.SetLines.{first_meter, telemetry_in, clock_in, made_in, made_from, meter_line};

use calendar::{Date, DateTime};
use console::{BYTE, LONG, SHORT, byte};
use meter_clock::Season;
use meter_record::{Record, RecordError};
use wire_values::Telemetry;

const WINTER: u8 = 0;

const SUMMER: u8 = 1;

// The console's first meter, which `meter 1 30 400 100 0 2000 1 1 0 0 0 0` makes.
pub fn first() -> Result<Record, RecordError>
    ensures { result ≡ first_meter }
{
    let telemetry = Telemetry {
        k: 400,
        ke: 100,
        reserve: 0,
    };
    let clock = DateTime {
        date: Date {
            year: 0,
            month: 1,
            day: 1,
        },
        hour: 0,
        minute: 0,
        second: 0,
    };
    meter_record::make(1, 30, telemetry, clock, Season::Winter)
}

// ADDRESS MINUTES K KE RESERVE YEAR MONTH DAY HOUR MINUTE SECOND SEASON; a new meter has an empty store.
#[tactic(auto, unfolding(crate::specs::SetLines::meter_line, crate::specs::SetLines::new_meter))]
pub fn meter(line: &[u8], store: &mut [u8]) -> Option<Result<Record, RecordError>>
    ensures { outcome result store.new ≡ meter_line line.now store.old }
{
    let form = [
        BYTE, BYTE, LONG, SHORT, SHORT, SHORT, BYTE, BYTE, BYTE, BYTE, BYTE, BYTE,
    ];
    if !console::is_form(line, &form) {
        return None;
    }
    let made = made_from(line, console::year(line, 6));
    if made.is_ok() {
        meter_store::clear(store);
    }
    Some(made)
}

#[tactic(auto, unfolding(crate::specs::SetLines::made_from))]
fn made_from(line: &[u8], year: Option<u8>) -> Result<Record, RecordError>
    ensures { result ≡ made_from line.now year }
{
    let year = year.ok_or(RecordError::OutOfRange)?;
    match byte(line, 12) {
        WINTER => made_in(line, year, Season::Winter),
        SUMMER => made_in(line, year, Season::Summer),
        _ => Err(RecordError::OutOfRange),
    }
}

#[tactic(auto, unfolding(crate::specs::SetLines::made_in))]
fn made_in(line: &[u8], year: u8, season: Season) -> Result<Record, RecordError>
    ensures { result ≡ made_in line.now year season }
{
    meter_record::make(
        byte(line, 1),
        byte(line, 2),
        telemetry(line),
        clock(line, year),
        season,
    )
}

fn telemetry(line: &[u8]) -> Telemetry
    ensures { result ≡ telemetry_in line.now }
{
    Telemetry {
        k: console::long(line, 3),
        ke: console::short(line, 4),
        reserve: console::short(line, 5),
    }
}

fn clock(line: &[u8], year: u8) -> DateTime
    ensures { result ≡ clock_in line.now year }
{
    DateTime {
        date: Date {
            year,
            month: byte(line, 7),
            day: byte(line, 8),
        },
        hour: byte(line, 9),
        minute: byte(line, 10),
        second: byte(line, 11),
    }
}
