// The interval that is asked for next.
ghost use Rattle.std.specs.Prelude.{◌≡◌};
ghost use Rattle.polling.specs.Next.{next_wanted, next_gap, next_in, asks_for, is_wanted};
ghost use Rattle.energy_log.specs.Image.{cell_at};
ghost use Rattle.energy_log.specs.View.{view_of};

use log_cell::Cell;
use log_header::Header;

// Which cells are asked for.
#[derive(Clone, Copy)]
pub enum Wanted {
    Gaps,
    // An empty one again: a figure that came later fills it.
    GapsAndEmpties,
}

// The first slot of a day, from a slot on, that exists and whose cell is a gap. Bytes that are no log have none, and neither has a day
// outside it.
pub fn next_gap(log: &[u8], day: u8, slot: u8) -> Option<u8>
    ensures { result ≡ next_gap (view_of log.now) day slot }
{
    next_wanted(log, day, slot, Wanted::Gaps)
}

// The same of the cells that are wanted.
#[tactic(auto, unfolding(crate::specs::Next::next_wanted))]
pub fn next_wanted(log: &[u8], day: u8, slot: u8, wanted: Wanted) -> Option<u8>
    ensures { result ≡ next_wanted wanted (view_of log.now) day slot }
{
    let h = log_header::sound(log)?;
    first_wanted(log, h, day, slot, wanted)
}

fn first_wanted(log: &[u8], h: Header, day: u8, slot: u8, wanted: Wanted) -> Option<u8>
    ensures { result ≡ next_in wanted h (cell_at log.now) day slot }
{
    (slot..slots::slots_of(h.minutes)).find(|i| asks_for(log, h, day, *i, wanted))
}

// A slot that is not in the log is never asked for, and one that does not exist is not in it.
#[tactic(auto, unfolding(crate::specs::Next::asks_for))]
pub fn asks_for(log: &[u8], h: Header, day: u8, slot: u8, wanted: Wanted) -> bool
    ensures { result ≡ asks_for wanted h (cell_at log.now) day slot }
{
    let Some(i) = log_header::interval_of(h, day, slot) else {
        return false;
    };
    is_wanted(wanted, energy_log::cell_at(log, i))
}

// A bad cell is not wanted.
#[tactic(auto, unfolding(crate::specs::Next::is_wanted))]
fn is_wanted(wanted: Wanted, answer: Option<Cell>) -> bool
    ensures { result ≡ is_wanted wanted answer }
{
    match answer {
        Some(Cell::Gap) => true,
        Some(Cell::Empty) => matches!(wanted, Wanted::GapsAndEmpties),
        Some(Cell::Measured(..)) | None => false,
    }
}
