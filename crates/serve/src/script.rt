// The script: the console's lines that make the meter.
use crate::bench::Bench;
use crate::say;
use console_io::Rest;
use console_meter::{Answer, Called};
use frame::layout::LONGEST;
use mercury_bench::Meter;
use meter_record::Record;
use std::fs::File;
use std::io;

// What the script has made so far.
#[derive(Clone, Copy)]
pub struct Made {
    pub record: Record,
    pub second: Option<Meter>,
}

// Why a line makes nothing.
#[derive(Clone, Copy, PartialEq, Eq)]
pub enum StepError {
    Refused(u8),
    Unread,
}

pub fn made_by(rt: HostRuntime, path: &[u8], store: &mut [u8]) -> Option<Bench> {
    let made = Made {
        record: console_meter::first().ok()?,
        second: None,
    };
    lines(rt, path, store, made)
        .map_err(|why| say::failed(rt, path, why))
        .ok()?
}

fn lines(rt: HostRuntime, path: &[u8], store: &mut [u8], first: Made) -> io::Result<Option<Bench>> {
    let mut file = File::open(&rt, file_io::as_text(path)?)?;
    let mut line = [0u8; console_io::LINE_ROOM];
    let mut block = [0u8; 4096];
    walk(rt, &mut file, path, store, first, &mut line, &mut block)
}

fn walk(
    rt: HostRuntime,
    file: &mut File,
    path: &[u8],
    store: &mut [u8],
    first: Made,
    line: &mut [u8],
    block: &mut [u8],
) -> io::Result<Option<Bench>> {
    let mut made = first;
    let mut rest = Rest { at: 0, end: 0 };
    // Nothing says that a file ends: this many lines none has.
    for number in 1..u64::MAX {
        let taken = console_io::next_line(file, block, rest, line)?;
        if taken.ended {
            return Ok(Some(ready_of(made)));
        }
        rest = taken.rest;
        match set(console::part(line, taken.length), store, made) {
            Ok(after) => made = after,
            Err(error) => {
                tell(rt, error, path, number);
                return Ok(None);
            }
        }
    }
    Ok(None)
}

// A script that says `mercury` makes that one.
fn ready_of(made: Made) -> Bench {
    made.second
        .map_or(Bench::Meter(made.record), Bench::Mercury)
}

// A line as the console takes it, but for its answer: `frame` changes the meter as the frame says, and what only asks changes nothing.
fn set(line: &[u8], store: &mut [u8], made: Made) -> Result<Made, StepError> {
    if console::is_passed_over(line) {
        return Ok(made);
    }
    let mut out = [0u8; LONGEST];
    if console_mercury::is_named(line) {
        // The console's first where the script has made none.
        let second = made.second.unwrap_or(console_mercury::first());
        return mercury_step(console_mercury::called(line, second, &mut out), made);
    }
    step_of(
        console_meter::called(line, store, made.record, &mut out),
        made,
    )
}

fn mercury_step(called: console_mercury::Called, made: Made) -> Result<Made, StepError> {
    let after = Made {
        second: Some(called.after),
        ..made
    };
    match called.answer {
        console_mercury::Answer::Unread => Err(StepError::Unread),
        console_mercury::Answer::Number(n) => numbered(n, after),
        console_mercury::Answer::Frame(_, _) | console_mercury::Answer::Told(_) => Ok(made),
    }
}

fn step_of(called: Called, made: Made) -> Result<Made, StepError> {
    let after = Made {
        record: called.after,
        ..made
    };
    match called.answer {
        Answer::Unread => Err(StepError::Unread),
        Answer::Number(n) | Answer::Reply(n, _) => numbered(n, after),
        Answer::Recorded | Answer::Shown | Answer::Inquired(_) => Ok(made),
    }
}

fn numbered(n: u8, after: Made) -> Result<Made, StepError> {
    if n != refusal::DONE {
        return Err(StepError::Refused(n));
    }
    Ok(after)
}

// One that was not done is named on standard error.
fn tell(rt: HostRuntime, error: StepError, path: &[u8], number: u64) {
    match error {
        StepError::Refused(n) => say::refused(rt, path, number, n),
        StepError::Unread => say::unread(rt, path, number),
    }
}
