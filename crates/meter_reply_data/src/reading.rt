// The data of a reply: a parameter's figures, written into the part of the reply that is lent for them.
ghost use Rattle.std.specs.Prelude.{◌≡◌};
ghost use Rattle.byte_numbers.specs.Place.{written};
ghost use Rattle.meter_reply_data.specs.Reading.{phase, power_data, summer_shown, winter_shown, six_bytes, figures_of};
ghost use Rattle.meter_reply_data.specs.Reading.{shown_of, displayed_of, figures_as, is_read, data_of, data_size};

use calendar::DateTime;
use energy::Counts;
use meter_clock::Time;
use meter_command::Command;
use meter_record::{Ratios, Record};
use parameters::code::{Function, Parameter, Reading};
use parameters::table;
use request::Request;
use wire_values::{Energies, KilowattHours, Phases, Telemetry};

#[tactic(auto, unfolding(crate::specs::Reading::phase))]
fn phase(p: Phases, detail: u8) -> f32
    ensures { result ≡ phase p detail }
{
    match detail {
        1 => p.a,
        2 => p.b,
        _ => p.c,
    }
}

// The total and the three phases, or one of them.
#[tactic(auto, unfolding(crate::specs::Reading::power_data))]
fn put_power(out: &mut [u8], p: Phases, detail: u8)
    ensures { out.new ≡ written out.old 0 (power_data p detail) }
{
    if detail == 0 {
        wire_values::put_powers(out, p);
    } else {
        wire_values::put_power(out, 0, phase(p, detail));
    }
}

// The automatic dates read as those of the clock's year.
fn summer_shown(t: Time) -> DateTime
    ensures { result ≡ summer_shown t }
{
    meter_clock::summer_date(t.summer, t.clock.date.year)
}

fn winter_shown(t: Time) -> DateTime
    ensures { result ≡ winter_shown t }
{
    meter_clock::winter_date(t.winter, t.clock.date.year)
}

// Six rows one behind the other, written out: each begins where the one before it ends.
fn put_six(out: &mut [u8], rows: [[u16; 4]; 6])
    ensures { out.new ≡ written out.old 0 (six_bytes rows) }
{
    meter_store::put_row(out, 0, rows[0]);
    meter_store::put_row(out, 8, rows[1]);
    meter_store::put_row(out, 16, rows[2]);
    meter_store::put_row(out, 24, rows[3]);
    meter_store::put_row(out, 32, rows[4]);
    meter_store::put_row(out, 40, rows[5]);
}

// The figures of a parameter that is read.
#[tactic(auto, unfolding(byte_numbers::specs::Place::written))]
fn put_figures(out: &mut [u8], p: Parameter, r: Record, store: &[u8], q: Request)
    ensures { out.new ≡ written out.old 0 (figures_of p r store.now q) }
{
    match p {
        Parameter::ActivePower => put_power(out, r.active, q.detail),
        Parameter::ReactivePower => put_power(out, r.reactive, q.detail),
        Parameter::Address => byte_numbers::put_byte(out, 0, r.address),
        Parameter::Telemetry => wire_values::put_telemetry(out, r.telemetry),
        Parameter::SummerDate => wire_values::put_date_time(out, summer_shown(r.time)),
        Parameter::WinterDate => wire_values::put_date_time(out, winter_shown(r.time)),
        Parameter::Clock => wire_values::put_date_time(out, r.time.clock),
        Parameter::DisplayMask => wire_values::put_display_mask(out, r.mask),
        Parameter::Slice => meter_store::put_row(
            out,
            0,
            meter_store::slice_of(store, request::key_of(q)),
        ),
        Parameter::SixSlices => put_six(out, meter_store::six_of(store, request::key_of(q))),
        Parameter::Password | Parameter::Unknown => {}
    }
}

// The kilowatt-hours that the display shows for some counts: their energy at the meter, times both ratios. Ratios that no record has show
// nothing.
#[tactic(auto, unfolding(crate::specs::Reading::shown_of))]
fn shown(telemetry: Telemetry, ratios: Ratios, counts: u16) -> KilowattHours
    ensures { result ≡ shown_of telemetry ratios counts }
{
    if !meter_record::are_ratios(ratios) {
        return KilowattHours(0);
    }
    let energy = Counts(counts as u32).energy(telemetry.ke);
    let product = (ratios.ki as u64) * (ratios.ku as u64);
    let primary = energy.number() * product;
    KilowattHours(kilowatt_hours::kwh_bits(primary))
}

// A row of the store as the display shows it.
#[tactic(auto, unfolding(crate::specs::Reading::displayed_of))]
fn displayed(r: Record, row: [u16; 4]) -> Energies
    ensures { result ≡ displayed_of r row }
{
    Energies {
        e_plus: shown(r.telemetry, r.ratios, row[0]),
        e_minus: shown(r.telemetry, r.ratios, row[1]),
        r_plus: shown(r.telemetry, r.ratios, row[2]),
        r_minus: shown(r.telemetry, r.ratios, row[3]),
    }
}

// The figures as they are stored, or as the display shows them.
fn put_as(out: &mut [u8], p: Parameter, r: Record, store: &[u8], q: Request)
    ensures { out.new ≡ written out.old 0 (figures_as q.reading p r store.now q) }
{
    match q.reading {
        Reading::Stored => put_figures(out, p, r, store, q),
        Reading::Displayed => wire_values::put_energies(
            out,
            displayed(r, meter_store::slice_of(store, request::key_of(q))),
        ),
    }
}

// Only a read has data.
pub fn is_read(function: Function) -> bool
    ensures { result ≡ is_read function }
{
    matches!(function, Function::Read(_))
}

// The data of the reply to a command that is done.
#[tactic(auto, unfolding(crate::specs::Reading::data_of, byte_numbers::specs::Place::written))]
pub fn put_data(out: &mut [u8], r: Record, store: &[u8], c: Command)
    ensures { out.new ≡ written out.old 0 (data_of r store.now c) }
{
    if is_read(c.function) {
        put_as(out, c.parameter, r, store, c.request);
    }
}

#[tactic(auto, unfolding(crate::specs::Reading::data_size))]
pub fn data_size(c: Command) -> usize
    ensures { result ≡ data_size c }
{
    if is_read(c.function) {
        table::bytes_in(c.request.reading, c.row, c.request.detail)
    } else {
        0
    }
}
