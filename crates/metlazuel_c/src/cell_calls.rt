// Single cells of a log for C.
ghost use Rattle.std.specs.Prelude.{◌≡◌};
ghost use Rattle.refusal.specs.Outcome.{outcome};
ghost use Rattle.energy_log.specs.View.{view_of};
ghost use Rattle.metlazuel.specs.CellCalls.{cell_for_c, next_gap_for_c};

#[unsafe(no_mangle)]
pub extern "C" fn metlazuel_cell(
    log: &[u8],
    day: u8,
    slot: u8,
    kind: &mut u8,
    counts: &mut [u16; 4],
    lapses: &mut u8,
) -> u8
    ensures { outcome result (kind.new, counts.new, lapses.new)
        ≡ cell_for_c (view_of log.now) day slot kind.old counts.old lapses.old }
{
    metlazuel::metlazuel_cell(log, day, slot, kind, counts, lapses)
}

#[unsafe(no_mangle)]
pub extern "C" fn metlazuel_next_gap(log: &[u8], day: u8, from: u8, slot: &mut u8) -> u8
    ensures { outcome result slot.new ≡ next_gap_for_c (view_of log.now) day from slot.old }
{
    metlazuel::metlazuel_next_gap(log, day, from, slot)
}
