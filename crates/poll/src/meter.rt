// Whether the meter on the line is the log's, and what its clock shows: asked before the first interval.
use calendar::DateTime;
use log_header::Header;
use paths_and_locks::front;
use poll_line::{Ask, REPLY_ROOM, Wire};
use poll_words::say;
use polling::{Learned, Question};

// The tries take a second each, at least, where reads wait.
const LEAST_SECONDS: u64 = 2;

pub fn met(wire: &Wire, h: Header, anyway: bool) -> Option<u32> {
    let learned = heard(wire, Question::Clock)?;
    let Learned::Clock(t) = learned else {
        say::unlearned(wire.rt, wire.device, wire.address, learned);
        return None;
    };
    let now = at(wire.rt, t, anyway)?;
    let fits = fits(wire, h, Question::Weight) && fits(wire, h, Question::Interval);
    fits.then_some(now)
}

// A clock that is more than a day off the machine's own time is a reason to stop.
fn at(rt: HostRuntime, t: DateTime, anyway: bool) -> Option<u32> {
    let Some(meter) = polling::moment_of(t) else {
        say::no_time(rt, t);
        return None;
    };
    let machine = polling::machine_minute(file_io::seconds(rt));
    if polling::far_apart(meter, machine) {
        say::far_apart(rt, t, machine, anyway);
        if !anyway {
            return None;
        }
    }
    say::clock(rt, t);
    Some(meter)
}

fn fits(wire: &Wire, h: Header, question: Question) -> bool {
    let Some(learned) = heard(wire, question) else {
        return false;
    };
    let fits = polling::fits_log(h, learned);
    if !fits {
        say::does_not_fit(wire.rt, wire.device, wire.address, h, learned);
    }
    fits
}

// What the meter tells; silence is said, and so is a device that failed.
fn heard(wire: &Wire, question: Question) -> Option<Learned> {
    let before = file_io::seconds(wire.rt);
    let mut reply = [0u8; REPLY_ROOM];
    let n = poll_line::asked(wire, Ask::Meter(question), &mut reply)?;
    if n == 0 {
        say_silent(wire, before);
        return None;
    }
    Some(polling::learned_from(question, wire.address, front(&reply, n)))
}

fn say_silent(wire: &Wire, before: u64) {
    if have_waited(wire.rt, before) {
        say::silent(wire.rt, wire.device, wire.address);
    } else {
        say::reads_do_not_wait(wire.rt, wire.device);
    }
}

// Whether the tries since then took as long as reads that wait do.
fn have_waited(rt: HostRuntime, before: u64) -> bool {
    let now = file_io::seconds(rt);
    now < before || LEAST_SECONDS <= now - before
}
