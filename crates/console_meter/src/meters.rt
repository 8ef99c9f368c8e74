// The bench meter's lines: each takes the record, and is lent the store and an output for the meter's reply.
ghost use Rattle.std.specs.Prelude.{◌≡◌};
ghost use Rattle.refusal.specs.Outcome.{outcome};
ghost use Rattle.console_meter.specs.SetLines.{set_line};
ghost use Rattle.console_meter.specs.Lines.{left, unread, set_answered, set_of, alone, frame_of, frame_line, inquire_line, called_line};

use crate::answer::{Answer, Called};
use crate::set_answer::record_after;
use console::BYTE;
use meter_record::{Record, RecordError};
use parameters::code::Reading;
use refusal::Numbered;

const FRAME: usize = 0;

const RECORD: usize = 1;

const SHOWN: usize = 2;

const INQUIRE: usize = 3;

const INQUIRE_DISPLAYED: usize = 4;

#[tactic(auto, unfolding(crate::specs::Lines::called_line, crate::specs::Lines::called_by, text::specs::Ascii::ascii))]
pub fn called(line: &[u8], store: &mut [u8], r: Record, out: &mut [u8]) -> Called
    ensures { outcome result (left store.new out.new) ≡ called_line r line.now store.old out.old }
{
    let verb = console::place_of(
        console::word(line, 0),
        b"frame record shown inquire inquire4",
    );
    match verb {
        FRAME => frame(line, store, r, out),
        RECORD => alone(line, Answer::Recorded, r),
        SHOWN => alone(line, Answer::Shown, r),
        INQUIRE => inquire(Reading::Stored, line, store, r, out),
        INQUIRE_DISPLAYED => inquire(Reading::Displayed, line, store, r, out),
        _ => set(line, store, r),
    }
}

// All stays as it was.
fn unread(r: Record) -> Called
    ensures { result ≡ unread r }
{
    Called {
        answer: Answer::Unread,
        after: r,
    }
}

fn set(line: &[u8], store: &mut [u8], r: Record) -> Called
    ensures { outcome result store.new ≡ set_of r (set_line r line.now store.old) }
{
    set_of(crate::set_lines::set(line, store, r), r)
}

#[tactic(auto, unfolding(crate::specs::Lines::set_answered))]
fn set_of(answer: Option<Result<Record, RecordError>>, r: Record) -> Called
    ensures { result ≡ set_answered r answer }
{
    let Some(given) = answer else {
        return unread(r);
    };
    Called {
        answer: Answer::Number(given.number()),
        after: record_after(given, r),
    }
}

// No words behind the first.
#[tactic(auto, unfolding(crate::specs::Lines::alone))]
fn alone(line: &[u8], answer: Answer, r: Record) -> Called
    ensures { result ≡ alone line.now answer r }
{
    if console::spaces(line) != 0 {
        return unread(r);
    }
    Called { answer, after: r }
}

// BYTES
#[tactic(auto, unfolding(crate::specs::Lines::frame_line, crate::specs::Lines::frame_in))]
fn frame(line: &[u8], store: &mut [u8], r: Record, out: &mut [u8]) -> Called
    ensures { outcome result (left store.new out.new) ≡ frame_line r line.now store.old out.old }
{
    if console::spaces(line) != 1 {
        return unread(r);
    }
    // As many as the longest line has.
    let mut bytes = [0u8; 2048];
    match console::read_bytes(console::word(line, 1), &mut bytes) {
        Some(n) => frame_of(console::part(&bytes, n), store, r, out),
        None => unread(r),
    }
}

#[tactic(auto, unfolding(crate::specs::Lines::frame_of))]
fn frame_of(bytes: &[u8], store: &mut [u8], r: Record, out: &mut [u8]) -> Called
    ensures { outcome result (left store.new out.new) ≡ frame_of r bytes.now store.old out.old }
{
    let answer = meter::answer(r, store, bytes, out);
    Called {
        answer: Answer::Reply(answer.verdict.number(), answer.length),
        after: answer.after,
    }
}

// A read request sent to the console's own meter: ADDRESS PARAMETER OFFSET TARIFF DETAIL
#[tactic(auto, unfolding(crate::specs::Lines::inquire_line))]
fn inquire(reading: Reading, line: &[u8], store: &mut [u8], r: Record, out: &mut [u8]) -> Called
    ensures { outcome result (left store.new out.new)
        ≡ inquire_line reading r line.now store.old out.old }
{
    if !console::is_form(line, &[BYTE, BYTE, BYTE, BYTE, BYTE]) {
        return unread(r);
    }
    let told = meter_round_trip::inquire(r, store, console_log::request_in(reading, line), out);
    Called {
        answer: Answer::Inquired(told),
        after: r,
    }
}
