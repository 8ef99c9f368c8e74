// The serial line: a frame is what one read gives, and its reply is written at once. One loop serves every meter.
ghost use Rattle.std.specs.Prelude.{◌≡◌};
ghost use Rattle.serve.specs.Served.{GoesOn};
ghost use Rattle.serve.specs.declared.bench.Bench.TheVariants as bench;

use crate::bench::Bench;
use crate::say;
use frame::layout::LONGEST;
use mercury_bench::Meter;
use meter_record::Record;
use std::fs::File;
use std::io::{IsTerminal, Read, Write};

// The meter and the wall clock as they stand, and the frames so far.
#[derive(Clone, Copy)]
pub struct Served {
    pub bench: Bench,
    // The wall clock when it was last looked at.
    pub seen: u64,
    pub read: u64,
    pub answered: u64,
    pub open: bool,
}

// Longer than any frame that a meter is sent, so that one which is too long is seen as that.
const FRAME_ROOM: usize = 256;

// The longest reply of each meter.
const METER_REPLY: usize = LONGEST;

const MERCURY_REPLY: usize = LONGEST;

// Until the device is closed, or so many frames were read. Whatever the line carries, the meter goes on by its answers and its seconds alone.
pub fn serve(
    rt: HostRuntime,
    line: &File,
    count: u64,
    device: &[u8],
    store: &mut [u8],
    first: Bench,
) -> Served
    ensures { GoesOn first store.old result.bench store.new }
{
    let mut served = Served {
        bench: first,
        seen: file_io::seconds(rt),
        read: 0,
        answered: 0,
        open: true,
    };
    for _ in 0..count {
        served = turn(rt, line, device, store, served);
        if !served.open {
            break;
        }
    }
    say::ended(rt, served.read, served.answered);
    served
}

// One frame, or none where the device is closed.
#[tactic(auto, using(crate::proofs::BenchLaws::same))]
fn turn(rt: HostRuntime, line: &File, device: &[u8], store: &mut [u8], s: Served) -> Served
    ensures { GoesOn s.bench store.old result.bench store.new }
{
    let mut frame = [0u8; FRAME_ROOM];
    let mut reader = line;
    match reader.read(&mut frame) {
        Ok(0) => nothing_read(rt, line, device),
        Ok(n) => return answer(rt, line, store, &frame[..n], s),
        Err(why) => say::failed(rt, device, why),
    }
    Served { open: false, ..s }
}

// A read that gave nothing is the end of a device that was closed; of a line that is still there it shows a setting which would hand over
// frames in pieces.
fn nothing_read(rt: HostRuntime, line: &File, device: &[u8]) {
    if line.is_terminal() {
        say::reads_nothing(rt, device);
    }
}

// What the meter answers to a frame, each meter from a buffer of its own replies' length.
fn answer(rt: HostRuntime, line: &File, store: &mut [u8], frame: &[u8], s: Served) -> Served
    ensures { GoesOn s.bench store.old result.bench store.new }
{
    match s.bench {
        Bench::Meter(record) => by_meter(rt, line, store, frame, s, record),
        Bench::Mercury(m) => by_mercury(line, frame, s, m),
    }
}

// The seconds since the last look, and then the frame.
fn by_meter(
    rt: HostRuntime,
    line: &File,
    store: &mut [u8],
    frame: &[u8],
    s: Served,
    before: Record,
) -> Served
    ensures { GoesOn (bench.Meter before) store.old result.bench store.new }
{
    let now = file_io::seconds(rt);
    let later = console_meter::seconds_later(before, console_meter::seconds_between(s.seen, now));
    let mut out = [0u8; METER_REPLY];
    let a = meter::answer(later, store, frame, &mut out);
    Served {
        bench: Bench::Meter(a.after),
        seen: now,
        read: s.read.saturating_add(1),
        answered: replied(line, console::part(&out, a.length), s.answered),
        open: true,
    }
}

// Its figures stay as the script says.
fn by_mercury(line: &File, frame: &[u8], s: Served, m: Meter) -> Served
    ensures { result.bench ≡ bench.Mercury m }
{
    let mut out = [0u8; MERCURY_REPLY];
    // None where the frame is met with silence.
    let length = mercury_bench::answer(m, frame, &mut out).unwrap_or(0);
    Served {
        bench: Bench::Mercury(m),
        seen: s.seen,
        read: s.read.saturating_add(1),
        answered: replied(line, console::part(&out, length), s.answered),
        open: true,
    }
}

// How many were answered, this one among them unless it is met with silence.
fn replied(line: &File, reply: &[u8], answered: u64) -> u64 {
    if reply.is_empty() {
        return answered;
    }
    let mut writer = line;
    let _ = writer.write_all(reply);
    answered.saturating_add(1)
}
