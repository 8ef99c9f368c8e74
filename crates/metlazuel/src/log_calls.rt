// The log for C: fresh logs, files, and asks, lapses and replies. A log is its image, its figures are numbers, and the open ask four bytes:
// firmware keeps all three between the calls. Bytes that are no ask count as an unsound log: 28. A refusal leaves what is lent, but for the
// open ask where document 01's table closes it.
ghost use Rattle.std.specs.Prelude.{◌≡◌};
ghost use Rattle.refusal.specs.Outcome.{outcome};
ghost use Rattle.energy_log.specs.Fresh.{fresh_number};
ghost use Rattle.energy_log.specs.View.{view_of};
ghost use Rattle.day_rows.specs.LogAndRows.{log_and_rows};
ghost use Rattle.day_rows.specs.Fresh.{fresh_with};
ghost use Rattle.log_file.specs.Write.{written_file, write_number};
ghost use Rattle.c_values.specs.Ask.{ask_of};
ghost use Rattle.metlazuel.specs.Calls.{sized};
ghost use Rattle.metlazuel.specs.LogCalls.{header_from, image_length, file_length, ask_left, ask_for_c, lapse_for_c, take_for_c};

use crate::given;
use calendar::Date;
use frame::layout::READ_BYTES;
use log_header::Header;
use logger::OpenAsk;
use refusal::Numbered;

// uint8_t metlazuel_log_fresh(uint8_t *log, size_t room, uint32_t *figures, size_t numbers, uint8_t year, uint8_t month, uint8_t day,
//     uint8_t days, uint8_t minutes, uint16_t ke, uint8_t seasons, size_t *length)
//
// A fresh log with its figures; `year` counts from 2000, and `seasons` is 1 where the automatic seasons are followed, else 0. The image's
// length goes to `length`.
#[tactic(auto, unfolding(crate::specs::LogCalls::image_length))]
pub fn metlazuel_log_fresh(
    log: &mut [u8],
    figures: &mut [u32],
    year: u8,
    month: u8,
    day: u8,
    days: u8,
    minutes: u8,
    ke: u16,
    seasons: u8,
    length: &mut usize,
) -> u8
    ensures { outcome result (length.new, log_and_rows log.new figures.new)
        ≡ sized fresh_number image_length (fresh_with (header_from year month day days minutes ke seasons) log.old figures.old)
        length.old }
{
    let header = Header {
        start: Date { year, month, day },
        days,
        minutes,
        ke,
        seasons,
    };
    let answer = day_rows::fresh_log(header, log, figures);
    *length = answer.unwrap_or(*length);
    answer.number()
}

// uint8_t metlazuel_write_file(const uint8_t *log, size_t n, uint8_t *out, size_t room, size_t *length)
//
// The file's length goes to `length`.
#[tactic(auto, unfolding(crate::specs::LogCalls::file_length))]
pub fn metlazuel_write_file(log: &[u8], out: &mut [u8], length: &mut usize) -> u8
    ensures { outcome result (length.new, out.new)
        ≡ sized write_number file_length (written_file (view_of log.now) out.old) length.old }
{
    let answer = log_file::write_file(log, out);
    *length = answer.unwrap_or(*length);
    answer.number()
}

// uint8_t metlazuel_ask(const uint8_t *log, size_t n, uint8_t *ask, size_t size, uint8_t address, uint8_t day, uint8_t slot, uint8_t *out,
//     size_t room)
//
// Opens an ask for a slot of a day, both counted from 0; its frame goes to the front of `out`.
#[tactic(auto, unfolding(crate::specs::LogCalls::ask_for_c))]
pub fn metlazuel_ask(
    log: &[u8],
    ask: &mut [u8],
    address: u8,
    day: u8,
    slot: u8,
    out: &mut [u8],
) -> u8
    ensures { outcome result (ask.new, out.new)
        ≡ ask_for_c (ask_of ask.old) (view_of log.now) ask.old address day slot out.old }
{
    let Some(held) = c_values::ask_of(ask) else {
        return given::unread_number(out.len(), READ_BYTES);
    };
    let asked = logger::put_ask(log, held, address, day, slot, out);
    put_left(ask, held, asked.held);
    asked.answer.number()
}

// The bytes of the ask, where a call opened or closed one.
#[tactic(auto, unfolding(crate::specs::LogCalls::ask_left))]
fn put_left(ask: &mut [u8], before: Option<OpenAsk>, after: Option<OpenAsk>)
    ensures { ask.new ≡ ask_left before after ask.old }
{
    if before.is_some() != after.is_some() {
        c_values::put_ask(ask, after);
    }
}

// uint8_t metlazuel_lapse(uint8_t *log, size_t n, uint8_t *ask, size_t size)
//
// No reply came: an open ask is closed, and its cell has one lapse more. With none open log and ask stay as they are.
#[tactic(auto, unfolding(crate::specs::LogCalls::lapse_for_c))]
pub fn metlazuel_lapse(log: &mut [u8], ask: &mut [u8]) -> u8
    ensures { outcome result (log.new, ask.new)
        ≡ lapse_for_c (ask_of ask.old) log.old ask.old }
{
    let Some(held) = c_values::ask_of(ask) else {
        return refusal::UNSOUND;
    };
    let lapsed = logger::lapse(log, held);
    put_left(ask, held, lapsed.held);
    lapsed.answer.number()
}

// uint8_t metlazuel_take(uint8_t *log, size_t n, uint32_t *figures, size_t numbers, uint8_t *ask, size_t size, const uint8_t *reply,
//     size_t bytes, uint8_t *result, size_t *length)
//
// Takes a reply for the open ask, and keeps the day's figures right. A meter's result that is not 0 goes to `result`, a length that is wrong
// to `length`.
#[tactic(auto, unfolding(crate::specs::LogCalls::take_for_c))]
pub fn metlazuel_take(
    log: &mut [u8],
    figures: &mut [u32],
    ask: &mut [u8],
    reply: &[u8],
    res: &mut u8,
    length: &mut usize,
) -> u8
    ensures { outcome result (res.new, length.new, log_and_rows log.new figures.new, ask.new)
        ≡ take_for_c (ask_of ask.old) (log_and_rows log.old figures.old) ask.old reply.now
        res.old length.old }
{
    let Some(held) = c_values::ask_of(ask) else {
        return refusal::UNSOUND;
    };
    let taken = logger::take_reply(log, figures, held, reply);
    put_left(ask, held, taken.held);
    *res = taken.result_or(*res);
    *length = taken.length_or(*length);
    taken.answer.number()
}
