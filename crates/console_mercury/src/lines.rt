// The lines that make, answer and decode frames, which leave the meter as it is.
ghost use Rattle.std.specs.Prelude.{◌≡◌};
ghost use Rattle.refusal.specs.Outcome.{outcome};
ghost use Rattle.console_mercury.specs.Lines.{frame_of, frame_line, ask_of, ask_line, decoded_from, decode_bytes, decode_line};

use crate::answer::Answer;
use console::{BYTE, LONG};
use mercury::layout::BARE_BYTES;
use mercury_bench::Meter;
use refusal::Numbered;

// As many bytes as the longest line has.
const LINE_BYTES: usize = 2048;

// mercury-frame BYTES
#[tactic(auto, unfolding(crate::specs::Lines::frame_line, crate::specs::Lines::frame_in))]
pub fn frame(line: &[u8], m: Meter, out: &mut [u8]) -> Answer
    ensures { outcome result out.new ≡ frame_line m line.now out.old }
{
    if console::spaces(line) != 1 {
        return Answer::Unread;
    }
    let mut bytes = [0u8; LINE_BYTES];
    match console::read_bytes(console::word(line, 1), &mut bytes) {
        Some(n) => frame_of(console::part(&bytes, n), m, out),
        None => Answer::Unread,
    }
}

#[tactic(auto, unfolding(crate::specs::Lines::frame_of))]
fn frame_of(request: &[u8], m: Meter, out: &mut [u8]) -> Answer
    ensures { outcome result out.new ≡ frame_of m request.now out.old }
{
    let answered = mercury_bench::answer(m, request, out);
    Answer::Frame(answered.number(), answered.unwrap_or(0))
}

// mercury-ask ADDRESS COMMAND
#[tactic(auto, unfolding(crate::specs::Lines::ask_line))]
pub fn ask(line: &[u8], out: &mut [u8]) -> Answer
    ensures { outcome result out.new ≡ ask_line line.now out.old }
{
    if !console::is_form(line, &[LONG, BYTE]) {
        return Answer::Unread;
    }
    ask_of(console::long(line, 1), console::byte(line, 2), out)
}

#[tactic(auto, unfolding(crate::specs::Lines::ask_of))]
fn ask_of(address: u32, code: u8, out: &mut [u8]) -> Answer
    ensures { outcome result out.new ≡ ask_of address code out.old }
{
    let answer = mercury::put_request(address, code, out);
    Answer::Frame(answer.number(), answer.map_or(0, |()| BARE_BYTES))
}

// mercury-decode ADDRESS COMMAND BYTES; without BYTES there are none.
#[tactic(auto, unfolding(crate::specs::Lines::decode_line))]
pub fn decode(line: &[u8]) -> Answer
    ensures { result ≡ decode_line line.now }
{
    if !console::are_numbers(line, &[LONG, BYTE]) {
        return Answer::Unread;
    }
    match console::spaces(line) {
        2 => decoded(line, b""),
        3 => decode_bytes(line),
        _ => Answer::Unread,
    }
}

#[tactic(auto, unfolding(crate::specs::Lines::decode_bytes, crate::specs::Lines::decode_in))]
fn decode_bytes(line: &[u8]) -> Answer
    ensures { result ≡ decode_bytes line.now }
{
    let mut bytes = [0u8; LINE_BYTES];
    match console::read_bytes(console::word(line, 3), &mut bytes) {
        Some(n) => decoded(line, console::part(&bytes, n)),
        None => Answer::Unread,
    }
}

fn decoded(line: &[u8], reply: &[u8]) -> Answer
    ensures { result ≡ decoded_from line.now reply.now }
{
    let (address, code) = (console::long(line, 1), console::byte(line, 2));
    Answer::Told(mercury::decode(address, code, reply))
}
