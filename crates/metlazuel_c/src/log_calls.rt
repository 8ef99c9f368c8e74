// The log for C.
ghost use Rattle.std.specs.Prelude.{◌≡◌};
ghost use Rattle.refusal.specs.Outcome.{outcome};
ghost use Rattle.energy_log.specs.Fresh.{fresh_number};
ghost use Rattle.energy_log.specs.View.{view_of};
ghost use Rattle.day_rows.specs.LogAndRows.{log_and_rows};
ghost use Rattle.day_rows.specs.Fresh.{fresh_with};
ghost use Rattle.log_file.specs.Write.{written_file, write_number};
ghost use Rattle.c_values.specs.Ask.{ask_of};
ghost use Rattle.metlazuel.specs.Calls.{sized};
ghost use Rattle.metlazuel.specs.LogCalls.{header_from, image_length, file_length, ask_for_c, lapse_for_c, take_for_c};

#[unsafe(no_mangle)]
pub extern "C" fn metlazuel_log_fresh(
    log: &mut [u8],
    figures: &mut [u32],
    year: u8,
    month: u8,
    day: u8,
    days: u8,
    minutes: u8,
    ke: u16,
    seasons: u8,
    length: &mut usize,
) -> u8
    ensures { outcome result (length.new, log_and_rows log.new figures.new)
        ≡ sized fresh_number image_length (fresh_with (header_from year month day days minutes ke seasons) log.old figures.old)
        length.old }
{
    metlazuel::metlazuel_log_fresh(
        log, figures, year, month, day, days, minutes, ke, seasons, length,
    )
}

#[unsafe(no_mangle)]
pub extern "C" fn metlazuel_write_file(log: &[u8], out: &mut [u8], length: &mut usize) -> u8
    ensures { outcome result (length.new, out.new)
        ≡ sized write_number file_length (written_file (view_of log.now) out.old) length.old }
{
    metlazuel::metlazuel_write_file(log, out, length)
}

#[unsafe(no_mangle)]
pub extern "C" fn metlazuel_ask(
    log: &[u8],
    ask: &mut [u8],
    address: u8,
    day: u8,
    slot: u8,
    out: &mut [u8],
) -> u8
    ensures { outcome result (ask.new, out.new)
        ≡ ask_for_c (ask_of ask.old) (view_of log.now) ask.old address day slot out.old }
{
    metlazuel::metlazuel_ask(log, ask, address, day, slot, out)
}

#[unsafe(no_mangle)]
pub extern "C" fn metlazuel_lapse(log: &mut [u8], ask: &mut [u8]) -> u8
    ensures { outcome result (log.new, ask.new)
        ≡ lapse_for_c (ask_of ask.old) log.old ask.old }
{
    metlazuel::metlazuel_lapse(log, ask)
}

#[unsafe(no_mangle)]
pub extern "C" fn metlazuel_take(
    log: &mut [u8],
    figures: &mut [u32],
    ask: &mut [u8],
    reply: &[u8],
    res: &mut u8,
    length: &mut usize,
) -> u8
    ensures { outcome result (res.new, length.new, log_and_rows log.new figures.new, ask.new)
        ≡ take_for_c (ask_of ask.old) (log_and_rows log.old figures.old) ask.old reply.now
        res.old length.old }
{
    metlazuel::metlazuel_take(log, figures, ask, reply, res, length)
}
