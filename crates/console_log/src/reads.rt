// Requests and replies without a log.
ghost use Rattle.std.specs.Prelude.{◌≡◌};
ghost use Rattle.refusal.specs.Outcome.{outcome};
ghost use Rattle.console_log.specs.Words.{reply_read, request_in};

use console::{BYTE, byte};
use console_io::say;
use parameters::code::Reading;
use reader::{DecodeError, Decoded, Fault};
use refusal::Numbered;
use request::Request;

// The reply of a line whose words before it are so many: none where it ends there.
#[tactic(auto, unfolding(crate::specs::Words::reply_read))]
pub fn reply_bytes(line: &[u8], before: usize, bytes: &mut [u8]) -> Option<usize>
    ensures { outcome result bytes.new ≡ reply_read line.now before bytes.old }
{
    match before.checked_sub(console::spaces(line)) {
        Some(0) => console::read_bytes(console::word(line, before), bytes),
        Some(1) => Some(0),
        _ => None,
    }
}

// ADDRESS PARAMETER OFFSET TARIFF DETAIL
pub fn request_in(reading: Reading, line: &[u8]) -> Request
    ensures { result ≡ request_in reading line.now }
{
    Request {
        reading,
        address: byte(line, 1),
        parameter: byte(line, 2),
        offset: byte(line, 3),
        tariff: byte(line, 4),
        detail: byte(line, 5),
    }
}

pub fn request(rt: HostRuntime, reading: Reading, line: &[u8]) {
    if console::is_form(line, &[BYTE, BYTE, BYTE, BYTE, BYTE]) {
        request_of(rt, request_in(reading, line));
    } else {
        say::unread(rt);
    }
}

fn request_of(rt: HostRuntime, q: Request) {
    let mut frame = [0u8; frame::layout::READ_BYTES];
    let answer = request::put_request(q, &mut frame);
    say::first(rt, answer.number());
    if answer.is_ok() {
        say::hex(rt, &frame);
    }
    say::end_of(rt, answer.number());
}

// A request's five numbers, and BYTES, or none.
pub fn decode(rt: HostRuntime, reading: Reading, line: &[u8]) {
    let mut bytes = [0u8; 2048];
    match reply_bytes(line, 6, &mut bytes) {
        Some(n) => decode_from(rt, reading, line, console::part(&bytes, n)),
        None => say::unread(rt),
    }
}

fn decode_from(rt: HostRuntime, reading: Reading, line: &[u8], reply: &[u8]) {
    if console::are_numbers(line, &[BYTE, BYTE, BYTE, BYTE, BYTE]) {
        decode_of(rt, request_in(reading, line), reply);
    } else {
        say::unread(rt);
    }
}

fn decode_of(rt: HostRuntime, q: Request, reply: &[u8]) {
    let decoded = reader::decode(q, reply);
    let number = decoded.number();
    say::first(rt, number);
    say_figures(rt, decoded, reply);
    say::end_of(rt, number);
}

pub fn say_figures(rt: HostRuntime, decoded: Result<Decoded, DecodeError>, reply: &[u8]) {
    match decoded {
        Ok(figures) => say_decoded(rt, figures, reply),
        Err(DecodeError::Malformed(fault)) => say_fault(rt, fault),
        Err(DecodeError::MeterRefused(result)) => say::number(rt, u64::from(result)),
        Err(_) => {}
    }
}

fn say_decoded(rt: HostRuntime, figures: Decoded, reply: &[u8]) {
    match figures {
        Decoded::Address(address) => say::number(rt, u64::from(address)),
        Decoded::Telemetry(t) => {
            say::number(rt, u64::from(t.k));
            say::number(rt, u64::from(t.ke));
            say::number(rt, u64::from(t.reserve));
        }
        Decoded::DateTime(t) => {
            let mut bytes = [0u8; 6];
            wire_values::put_date_time(&mut bytes, t);
            say::six_bytes(rt, bytes);
        }
        Decoded::DisplayMask(m) => {
            let mut bytes = [0u8; 6];
            wire_values::put_display_mask(&mut bytes, m);
            say::six_bytes(rt, bytes);
        }
        Decoded::Powers(p) => {
            for power in [p.total, p.phases.a, p.phases.b, p.phases.c] {
                say::float(rt, power);
            }
        }
        Decoded::OnePower(x) => say::float(rt, x),
        Decoded::Slice(c) => {
            for energy in [c.e_plus, c.e_minus, c.r_plus, c.r_minus] {
                say::number(rt, u64::from(energy));
            }
        }
        Decoded::SixSlices => {
            for [ep, em, rp, rm] in reader::six_slices(reply) {
                say::four_counts(rt, ep, em, rp, rm);
            }
        }
        Decoded::Displayed(e) => {
            for energy in [e.e_plus, e.e_minus, e.r_plus, e.r_minus] {
                say::float_bits(rt, energy.0);
            }
        }
    }
}

// The length received, which a 50 comes with.
pub fn say_fault(rt: HostRuntime, fault: Fault) {
    if let Fault::Length(n) = fault {
        say::number(rt, n as u64);
    }
}
