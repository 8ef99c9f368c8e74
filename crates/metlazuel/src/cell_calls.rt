// Single cells of a log for C: what one holds, and which one is asked for next. A refusal leaves what is lent.
ghost use Rattle.std.specs.Prelude.{◌≡◌};
ghost use Rattle.refusal.specs.Outcome.{outcome};
ghost use Rattle.energy_log.specs.View.{view_of};
ghost use Rattle.metlazuel.specs.CellCalls.{kind_of, counts_of, cell_for_c, next_gap_for_c};

use log_cell::Cell;

// The kinds, as a cell's first byte has them.
const GAP: u8 = 0;

const EMPTY: u8 = 1;

const MEASURED: u8 = 2;

// In a slot's place: the day has no gap. No day has so many slots.
const NO_GAP: u8 = 255;

// uint8_t metlazuel_cell(const uint8_t *log, size_t n, uint8_t day, uint8_t slot, uint8_t *kind, uint16_t counts[4], uint8_t *lapses)
//
// The cell of a slot of a day, both counted from 0: its kind goes to `kind`, E+, E-, R+ and R- to `counts`, and how many asks for it lapsed
// to `lapses`.
#[tactic(auto, unfolding(crate::specs::CellCalls::cell_for_c))]
pub fn metlazuel_cell(
    log: &[u8],
    day: u8,
    slot: u8,
    kind: &mut u8,
    counts: &mut [u16; 4],
    lapses: &mut u8,
) -> u8
    ensures { outcome result (kind.new, counts.new, lapses.new)
        ≡ cell_for_c (view_of log.now) day slot kind.old counts.old lapses.old }
{
    let Some(h) = log_header::sound(log) else {
        return refusal::UNSOUND;
    };
    let Some(i) = log_header::interval_of(h, day, slot) else {
        return refusal::NOT_IN_LOG;
    };
    let Some(c) = energy_log::cell_at(log, i) else {
        return refusal::UNSOUND;
    };
    *kind = kind_of(c);
    *counts = counts_of(c);
    *lapses = energy_log::lapses_at(log, i);
    refusal::DONE
}

#[tactic(auto, unfolding(crate::specs::CellCalls::kind_of))]
fn kind_of(c: Cell) -> u8
    ensures { result ≡ kind_of c }
{
    match c {
        Cell::Gap => GAP,
        Cell::Empty => EMPTY,
        Cell::Measured(_, _, _, _) => MEASURED,
    }
}

#[tactic(auto, unfolding(crate::specs::CellCalls::counts_of))]
fn counts_of(c: Cell) -> [u16; 4]
    ensures { result ≡ counts_of c }
{
    match c {
        Cell::Gap | Cell::Empty => [0, 0, 0, 0],
        Cell::Measured(e_plus, e_minus, r_plus, r_minus) => [e_plus, e_minus, r_plus, r_minus],
    }
}

// uint8_t metlazuel_next_gap(const uint8_t *log, size_t n, uint8_t day, uint8_t from, uint8_t *slot)
//
// The first slot of a day, from a slot on, whose cell is a gap goes to `slot`; 255 where none is one.
#[tactic(auto, unfolding(crate::specs::CellCalls::next_gap_for_c, crate::specs::CellCalls::slot_of))]
pub fn metlazuel_next_gap(log: &[u8], day: u8, from: u8, slot: &mut u8) -> u8
    ensures { outcome result slot.new ≡ next_gap_for_c (view_of log.now) day from slot.old }
{
    let Some(h) = log_header::sound(log) else {
        return refusal::UNSOUND;
    };
    if h.days <= day {
        return refusal::NOT_IN_LOG;
    }
    *slot = polling::next_gap(log, day, from).unwrap_or(NO_GAP);
    refusal::DONE
}
