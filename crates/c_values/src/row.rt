// The figures of a decoded reply as a row of 32-bit numbers, for callers that cannot hold a Rattle value.
//
// `figures_for` says how long the row has to be before there is a reply; `put_figures` fills it. A reply that was refused has no figures.
ghost use Rattle.std.specs.Prelude.{◌≡◌};
ghost use Rattle.byte_numbers.specs.Place.{written};
ghost use Rattle.reader.specs.Rows.{four_of};
ghost use Rattle.c_values.specs.Row.{figures_for, time_row, powers_row, six_row, counts_row, energies_row, figure_row};

use calendar::DateTime;
use parameters::table;
use reader::{DecodeError, Decoded};
use request::Subject;
use wire_values::{Energies, Powers, Row};

// How many figures a reply has that is done.
pub fn figures_for(subject: Option<Subject>) -> usize
    ensures { result ≡ figures_for subject }
{
    match subject {
        Some(asked) => table::figure_count(asked.reading, asked.parameter, asked.detail),
        None => 0,
    }
}

// Puts the figures to the front of a row, as far as it has room. The rows of six slices stand in the reply itself.
#[tactic(auto, unfolding(crate::specs::Row::figure_row, byte_numbers::specs::Place::written))]
pub fn put_figures(row: &mut [u32], d: Result<Decoded, DecodeError>, reply: &[u8])
    ensures { row.new ≡ written row.old 0 (figure_row d reply.now) }
{
    match d {
        Err(_) => {}
        Ok(Decoded::Address(a)) => byte_numbers::put_all(row, 0, &[a as u32]),
        Ok(Decoded::Telemetry(t)) => byte_numbers::put_all(
            row,
            0,
            &[t.k, t.ke as u32, t.reserve as u32],
        ),
        Ok(Decoded::DateTime(t)) => put_time(row, t),
        Ok(Decoded::DisplayMask(m)) => {
            byte_numbers::put_all(
                row,
                0,
                &[m.parameters, m.tariffs as u32, m.directions as u32],
            )
        }
        Ok(Decoded::Powers(p)) => put_powers(row, p),
        Ok(Decoded::OnePower(p)) => byte_numbers::put_all(row, 0, &[wire_values::bits_of(p)]),
        Ok(Decoded::Slice(s)) => put_slice(row, s),
        Ok(Decoded::SixSlices) => put_six(row, reader::six_slices(reply)),
        Ok(Decoded::Displayed(e)) => put_energies(row, e),
    }
}

#[tactic(auto, unfolding(crate::specs::Row::time_row))]
fn put_time(row: &mut [u32], t: DateTime)
    ensures { row.new ≡ written row.old 0 (time_row t) }
{
    byte_numbers::put_all(
        row,
        0,
        &[
            t.date.year as u32,
            t.date.month as u32,
            t.date.day as u32,
            t.hour as u32,
            t.minute as u32,
            t.second as u32,
        ],
    );
}

#[tactic(auto, unfolding(crate::specs::Row::powers_row))]
fn put_powers(row: &mut [u32], p: Powers)
    ensures { row.new ≡ written row.old 0 (powers_row p) }
{
    byte_numbers::put_all(
        row,
        0,
        &[
            wire_values::bits_of(p.total),
            wire_values::bits_of(p.phases.a),
            wire_values::bits_of(p.phases.b),
            wire_values::bits_of(p.phases.c),
        ],
    );
}

fn put_slice(row: &mut [u32], s: Row)
    ensures { row.new ≡ written row.old 0 (four_of s) }
{
    byte_numbers::put_all(
        row,
        0,
        &[
            s.e_plus as u32,
            s.e_minus as u32,
            s.r_plus as u32,
            s.r_minus as u32,
        ],
    );
}

// Each as the bits of its float.
#[tactic(auto, unfolding(crate::specs::Row::energies_row))]
fn put_energies(row: &mut [u32], e: Energies)
    ensures { row.new ≡ written row.old 0 (energies_row e) }
{
    byte_numbers::put_all(row, 0, &[e.e_plus.0, e.e_minus.0, e.r_plus.0, e.r_minus.0]);
}

// Six rows one behind the other, each named: a loop would be no shorter.
#[tactic(auto, unfolding(crate::specs::Row::six_row, crate::specs::Row::counts_row, byte_numbers::specs::Place::written))]
fn put_six(row: &mut [u32], rows: [[u16; 4]; 6])
    ensures { row.new ≡ written row.old 0 (six_row rows) }
{
    put_counts(row, 0, rows[0]);
    put_counts(row, 4, rows[1]);
    put_counts(row, 8, rows[2]);
    put_counts(row, 12, rows[3]);
    put_counts(row, 16, rows[4]);
    put_counts(row, 20, rows[5]);
}

#[tactic(auto, unfolding(crate::specs::Row::counts_row))]
fn put_counts(row: &mut [u32], at: usize, counts: [u16; 4])
    ensures { row.new ≡ written row.old at (counts_row counts) }
{
    byte_numbers::put_all(
        row,
        at,
        &[
            counts[0] as u32,
            counts[1] as u32,
            counts[2] as u32,
            counts[3] as u32,
        ],
    );
}
