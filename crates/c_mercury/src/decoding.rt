// Replies decoded: their figures go to a lent row of 32-bit numbers.
ghost use Rattle.std.specs.Prelude.{◌≡◌};
ghost use Rattle.refusal.specs.Outcome.{outcome};
ghost use Rattle.byte_numbers.specs.Place.{written};
ghost use Rattle.c_mercury.specs.Calls.{figures_for, tariffs_row, load_row, frequency_row, figure_row, count_after, decode_for_c};

use mercury::{Command, DecodeError, Decoded, Frequency, Load, Tariffs};
use refusal::Numbered;

// The figures go to the front of `figures` and their number to `count`; a refusal leaves both.
#[tactic(auto, unfolding(crate::specs::Calls::decode_for_c))]
pub fn decode(address: u32, code: u8, reply: &[u8], figures: &mut [u32], count: &mut usize) -> u8
    ensures { outcome result (count.new, figures.new)
        ≡ decode_for_c address code reply.now figures.old count.old }
{
    if figures.len() < figures_for(Command::from(code)) {
        return refusal::TOO_SHORT;
    }
    let decoded = mercury::decode(address, code, reply);
    put_figures(figures, decoded);
    *count = count_after(decoded, *count);
    decoded.number()
}

// How many figures a reply has: the seven bytes behind a frequency are one each.
fn figures_for(c: Command) -> usize
    ensures { result ≡ figures_for c }
{
    match c {
        Command::Tariffs => 4,
        Command::Load => 3,
        Command::Frequency => 8,
        Command::Unknown => 0,
    }
}

// By the figures that were read, and not by the command that was asked for.
fn count_after(d: Result<Decoded, DecodeError>, before: usize) -> usize
    ensures { result ≡ count_after d before }
{
    match d {
        Ok(Decoded::Tariffs(_)) => 4,
        Ok(Decoded::Load(_)) => 3,
        Ok(Decoded::Frequency(_)) => 8,
        Err(_) => before,
    }
}

#[tactic(auto, unfolding(crate::specs::Calls::figure_row, byte_numbers::specs::Place::written))]
fn put_figures(row: &mut [u32], d: Result<Decoded, DecodeError>)
    ensures { row.new ≡ written row.old 0 (figure_row d) }
{
    match d {
        Ok(Decoded::Tariffs(t)) => put_tariffs(row, t),
        Ok(Decoded::Load(l)) => put_load(row, l),
        Ok(Decoded::Frequency(f)) => put_frequency(row, f),
        Err(_) => {}
    }
}

fn put_tariffs(row: &mut [u32], t: Tariffs)
    ensures { row.new ≡ written row.old 0 (tariffs_row t) }
{
    byte_numbers::put_all(row, 0, &[t.first.0, t.second.0, t.third.0, t.fourth.0]);
}

fn put_load(row: &mut [u32], l: Load)
    ensures { row.new ≡ written row.old 0 (load_row l) }
{
    byte_numbers::put_all(row, 0, &[l.voltage.0 as u32, l.current.0 as u32, l.power.0]);
}

fn put_frequency(row: &mut [u32], f: Frequency)
    ensures { row.new ≡ written row.old 0 (frequency_row f) }
{
    let rest = f.rest;
    byte_numbers::put_all(
        row,
        0,
        &[
            f.frequency.0 as u32,
            rest.0 as u32,
            rest.1 as u32,
            rest.2 as u32,
            rest.3 as u32,
            rest.4 as u32,
            rest.5 as u32,
            rest.6 as u32,
        ],
    );
}
