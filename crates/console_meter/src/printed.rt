// The answers of the bench meter's lines, on standard output.
use crate::answer::{Answer, Called};
use console_io::say;
use meter_clock::{Level, Protection, Season, Time};
use meter_record::Record;
use meter_round_trip::InquiryError;
use reader::Decoded;
use refusal::Numbered;

const FIRST_YEAR: u16 = 2000;

// What a line came to, with the output that it was lent.
pub fn print(rt: HostRuntime, called: Called, out: &[u8]) {
    match called.answer {
        Answer::Unread => say::unread(rt),
        Answer::Number(n) => say::number_line(rt, n),
        Answer::Reply(n, length) => say::bytes_line(rt, n, console::part(out, length)),
        Answer::Recorded => record(rt, called.after),
        Answer::Shown => shown(rt, called.after),
        Answer::Inquired(told) => inquired(rt, told, out),
    }
}

fn record(rt: HostRuntime, r: Record) {
    say::first(rt, refusal::DONE);
    say::number(rt, u64::from(r.address));
    protection(rt, r.protection);
    time(rt, r.time);
    say::short(rt, r.next);
    say::number(rt, u64::from(r.ratios.ki));
    say::number(rt, u64::from(r.ratios.ku));
    say::end(rt);
}

fn protection(rt: HostRuntime, p: Protection) {
    let level = match p.level {
        Level::Shut => 0,
        Level::Auxiliary => 1,
        Level::Main => 2,
    };
    say::number(rt, level);
    say::number(rt, u64::from(p.left));
}

fn time(rt: HostRuntime, t: Time) {
    let clock = t.clock;
    let date = clock.date;
    say::short(rt, FIRST_YEAR + u16::from(date.year));
    for n in [date.month, date.day, clock.hour, clock.minute, clock.second] {
        say::number(rt, u64::from(n));
    }
    let season = match t.season {
        Season::Winter => 0,
        Season::Summer => 1,
    };
    say::number(rt, season);
}

// What the display shows, as the six bytes of a mask.
fn shown(rt: HostRuntime, r: Record) {
    let mut bytes = [0u8; 6];
    wire_values::put_display_mask(&mut bytes, meter_record::shown(r.mask));
    say::first(rt, refusal::DONE);
    say::hex(rt, &bytes);
    say::end(rt);
}

fn inquired(rt: HostRuntime, told: Result<Decoded, InquiryError>, reply: &[u8]) {
    say::first(rt, told.number());
    match told {
        Ok(figures) => console_log::say_figures(rt, Ok(figures), reply),
        Err(InquiryError::Undecoded(error)) => console_log::say_figures(rt, Err(error), reply),
        Err(_) => {}
    }
    say::end_of(rt, told.number());
}
