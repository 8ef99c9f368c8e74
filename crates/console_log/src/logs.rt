// The calls on the log and its open ask.
ghost use Rattle.std.specs.Prelude.{◌≡◌};
ghost use Rattle.refusal.specs.Outcome.{outcome};
ghost use Rattle.day_rows.specs.LogAndRows.{log_and_rows};
ghost use Rattle.day_rows.specs.Fresh.{fresh_with};
ghost use Rattle.log_file.specs.Read.{read_file};
ghost use Rattle.console.specs.Form.{short_in, year_of};
ghost use Rattle.console_log.specs.Log.{new_log, loaded_log, fresh_in, fresh_line};
ghost use Rattle.console_log.specs.Log.{asked_for, ask_line, lapse_of, lapse_line, reply_of, reply_line};

use calendar::Date;
use console::{BYTE, SHORT, byte};
use console_io::say;
use log_cell::Cell;
use log_header::Header;
use logger::{AskError, OpenAsk, TakeError};
use refusal::Numbered;

// What is kept of the log beside its image and its figures: its length, 0 where there is no log, and the open ask.
#[derive(Clone, Copy)]
pub struct ConsoleLog {
    pub length: usize,
    pub held: Option<OpenAsk>,
}

// All stays as it was.
fn unread(rt: HostRuntime, kept: ConsoleLog) -> ConsoleLog
    ensures { result ≡ kept }
{
    say::unread(rt);
    kept
}

// YEAR MONTH DAY DAYS MINUTES KE SEASONS
#[tactic(auto, unfolding(crate::specs::Log::fresh_line))]
pub fn fresh(
    rt: HostRuntime,
    line: &[u8],
    image: &mut [u8],
    figures: &mut [u32],
    kept: ConsoleLog,
) -> ConsoleLog
    ensures { outcome result (log_and_rows image.new figures.new)
        ≡ fresh_line line.now (log_and_rows image.old figures.old) kept }
{
    if !console::is_form(line, &[SHORT, BYTE, BYTE, BYTE, BYTE, SHORT, BYTE]) {
        return unread(rt, kept);
    }
    fresh_from(rt, line, image, figures, kept)
}

#[tactic(auto, unfolding(crate::specs::Log::fresh_in))]
fn fresh_from(
    rt: HostRuntime,
    line: &[u8],
    image: &mut [u8],
    figures: &mut [u32],
    kept: ConsoleLog,
) -> ConsoleLog
    ensures { outcome result (log_and_rows image.new figures.new)
        ≡ fresh_in (year_of (short_in line.now 1)) line.now (log_and_rows image.old figures.old) kept }
{
    let Some(year) = console::year(line, 1) else {
        say::number_line(rt, refusal::OUT_OF_RANGE);
        return kept;
    };
    let header = Header {
        start: Date {
            year,
            month: byte(line, 2),
            day: byte(line, 3),
        },
        days: byte(line, 4),
        minutes: byte(line, 5),
        ke: console::short(line, 6),
        seasons: byte(line, 7),
    };
    fresh_of(rt, header, image, figures, kept)
}

#[tactic(auto, unfolding(crate::specs::Log::kept_after))]
fn fresh_of(
    rt: HostRuntime,
    h: Header,
    image: &mut [u8],
    figures: &mut [u32],
    kept: ConsoleLog,
) -> ConsoleLog
    ensures { outcome result (log_and_rows image.new figures.new)
        ≡ new_log kept (fresh_with h image.old figures.old) }
{
    let answer = day_rows::fresh_log(h, image, figures);
    say::number_line(rt, answer.number());
    answer.map_or(kept, |length| ConsoleLog { length, held: None })
}

// The bytes of a file.
#[tactic(auto, unfolding(crate::specs::Log::kept_loaded))]
pub fn loaded(
    rt: HostRuntime,
    bytes: &[u8],
    image: &mut [u8],
    figures: &mut [u32],
    kept: ConsoleLog,
) -> ConsoleLog
    ensures { outcome result (log_and_rows image.new figures.new)
        ≡ loaded_log kept (read_file bytes.now image.old figures.old) }
{
    let answer = log_file::read_file(bytes, image, figures);
    say::number_line(rt, answer.number());
    answer.map_or(kept, |length| ConsoleLog { length, held: None })
}

// ADDRESS DAY SLOT
#[tactic(auto, unfolding(crate::specs::Log::ask_line))]
pub fn ask(rt: HostRuntime, line: &[u8], image: &[u8], kept: ConsoleLog) -> ConsoleLog
    ensures { result ≡ ask_line line.now image.now kept }
{
    if !console::is_form(line, &[BYTE, BYTE, BYTE]) {
        return unread(rt, kept);
    }
    ask_for(rt, image, kept, byte(line, 1), byte(line, 2), byte(line, 3))
}

#[tactic(auto, unfolding(crate::specs::Log::asked_for))]
fn ask_for(
    rt: HostRuntime,
    image: &[u8],
    kept: ConsoleLog,
    address: u8,
    day: u8,
    slot: u8,
) -> ConsoleLog
    ensures { result ≡ asked_for image.now kept address day slot }
{
    let mut frame = [0u8; frame::layout::READ_BYTES];
    let log = console::part(image, kept.length);
    let asked = logger::put_ask(log, kept.held, address, day, slot, &mut frame);
    say_asked(rt, asked.answer, &frame);
    ConsoleLog {
        held: asked.held,
        ..kept
    }
}

fn say_asked(rt: HostRuntime, answer: Result<(), AskError>, frame: &[u8]) {
    say::first(rt, answer.number());
    if answer.is_ok() {
        say::hex(rt, frame);
    }
    say::end_of(rt, answer.number());
}

#[tactic(auto, unfolding(crate::specs::Log::lapse_line))]
pub fn lapse(rt: HostRuntime, line: &[u8], image: &mut [u8], kept: ConsoleLog) -> ConsoleLog
    ensures { outcome result image.new ≡ lapse_line line.now image.old kept }
{
    if console::spaces(line) != 0 {
        return unread(rt, kept);
    }
    lapse_of(rt, image, kept)
}

#[tactic(auto, unfolding(crate::specs::Log::lapse_of))]
fn lapse_of(rt: HostRuntime, image: &mut [u8], kept: ConsoleLog) -> ConsoleLog
    ensures { outcome result image.new ≡ lapse_of image.old kept }
{
    if image.len() < kept.length {
        return unread(rt, kept);
    }
    let lapsed = logger::lapse(&mut image[..kept.length], kept.held);
    say::number_line(rt, lapsed.answer.number());
    ConsoleLog {
        held: lapsed.held,
        ..kept
    }
}

// BYTES, or none
#[tactic(auto, unfolding(crate::specs::Log::reply_line, crate::specs::Log::reply_in))]
pub fn reply(
    rt: HostRuntime,
    line: &[u8],
    image: &mut [u8],
    figures: &mut [u32],
    kept: ConsoleLog,
) -> ConsoleLog
    ensures { outcome result (log_and_rows image.new figures.new)
        ≡ reply_line line.now (log_and_rows image.old figures.old) kept }
{
    let mut bytes = [0u8; 2048];
    match crate::reads::reply_bytes(line, 1, &mut bytes) {
        Some(n) => reply_of(rt, console::part(&bytes, n), image, figures, kept),
        None => unread(rt, kept),
    }
}

#[tactic(auto, unfolding(crate::specs::Log::reply_of))]
fn reply_of(
    rt: HostRuntime,
    bytes: &[u8],
    image: &mut [u8],
    figures: &mut [u32],
    kept: ConsoleLog,
) -> ConsoleLog
    ensures { outcome result (log_and_rows image.new figures.new)
        ≡ reply_of bytes.now (log_and_rows image.old figures.old) kept }
{
    if image.len() < kept.length {
        return unread(rt, kept);
    }
    let taken = logger::take_reply(&mut image[..kept.length], figures, kept.held, bytes);
    say_taken(rt, taken.answer);
    ConsoleLog {
        held: taken.held,
        ..kept
    }
}

fn say_taken(rt: HostRuntime, answer: Result<(), TakeError>) {
    say::first(rt, answer.number());
    match answer {
        Err(TakeError::Malformed(fault)) => crate::reads::say_fault(rt, fault),
        Err(TakeError::MeterRefused(result)) => say::number(rt, u64::from(result)),
        _ => {}
    }
    say::end_of(rt, answer.number());
}

pub fn open_ask(rt: HostRuntime, line: &[u8], held: Option<OpenAsk>) {
    if console::spaces(line) != 0 {
        say::unread(rt);
        return;
    }
    say::first(rt, refusal::DONE);
    match held {
        None => say::put(rt, b" closed"),
        Some(OpenAsk { address, day, slot }) => {
            say::number(rt, u64::from(address));
            say::number(rt, u64::from(day));
            say::number(rt, u64::from(slot));
        }
    }
    say::end(rt);
}

// DAY SLOT
pub fn cell(rt: HostRuntime, line: &[u8], image: &[u8]) {
    if console::is_form(line, &[BYTE, BYTE]) {
        cell_of(rt, image, byte(line, 1), byte(line, 2));
    } else {
        say::unread(rt);
    }
}

fn cell_of(rt: HostRuntime, image: &[u8], day: u8, slot: u8) {
    let Some(h) = log_header::sound(image) else {
        return say::number_line(rt, refusal::UNSOUND);
    };
    let Some(i) = log_header::interval_of(h, day, slot) else {
        return say::number_line(rt, refusal::NOT_IN_LOG);
    };
    let Some(c) = energy_log::cell_at(image, i) else {
        return say::number_line(rt, refusal::UNSOUND);
    };
    say_cell(rt, c, energy_log::lapses_at(image, i));
}

fn say_cell(rt: HostRuntime, c: Cell, lapses: u8) {
    say::first(rt, refusal::DONE);
    match c {
        Cell::Gap => say::put(rt, b" gap"),
        Cell::Empty => say::put(rt, b" empty"),
        Cell::Measured(ep, em, rp, rm) => {
            say::put(rt, b" measured");
            say::four_counts(rt, ep, em, rp, rm);
        }
    }
    say::number(rt, u64::from(lapses));
    say::end(rt);
}

// DAY
pub fn report(rt: HostRuntime, line: &[u8], image: &[u8], figures: &[u32]) {
    if console::is_form(line, &[BYTE]) {
        report_of(rt, image, figures, byte(line, 1));
    } else {
        say::unread(rt);
    }
}

fn report_of(rt: HostRuntime, image: &[u8], figures: &[u32], day: u8) {
    let mut row = [0u32; day_rows::REPORT_NUMBERS];
    let answer = day_report::day_report(image, figures, day, &mut row);
    say::first(rt, answer.number());
    if answer.is_ok() {
        for figure in row {
            say::number(rt, u64::from(figure));
        }
    }
    say::end_of(rt, answer.number());
}
