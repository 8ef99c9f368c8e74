// The line to the meter. A read gives what is there, or nothing after a tenth of a second: it was silent.
use frame::layout::LONGEST;
use paths_and_locks::front;
use poll_words::say;
use std::fs::File;
use std::io;
use std::io::{Read, Write};

#[derive(Drop)]
pub struct Wire<'a> {
    // What is said of it is said on this machine.
    pub rt: HostRuntime,
    // The line's name, as what is said of it has it.
    pub device: &'a [u8],
    // Open for reading and writing.
    pub line: File,
    // The meter's.
    pub address: u8,
    // Whether standard error is one.
    pub terminal: bool,
    // Whether a reply may be a refusal, which is shorter: the Mercury 206 has none.
    pub refuses: bool,
}

// Silent reads in a row, before an ask and after one that was lost.
const BEFORE_AN_ASK: u8 = 1;

const AFTER_A_LOSS: u8 = polling::SILENT_MOST;

// No drain reads more often: a line that is never silent for so long carries no dialogue.
const DRAIN_READS: u16 = 4096;

// The longest reply of any meter that is asked.
pub const REPLY_ROOM: usize = LONGEST;

// A reply is over by then: the silent reads before its first byte, and a read for each byte of the longest.
const GATHER_READS: usize = polling::SILENT_MOST as usize + REPLY_ROOM;

// What a drain throws away at a time.
const CHUNK: usize = REPLY_ROOM;

// Sends a frame on a line that is silent, and gathers what is heard then: a full reply has so many bytes.
pub fn exchange(wire: &Wire, frame: &[u8], full: usize, reply: &mut [u8]) -> Option<usize> {
    if !drained(wire, BEFORE_AN_ASK) {
        return None;
    }
    let mut line = &wire.line;
    line.write_all(frame)
        .and_then(|()| gather(wire, full, reply))
        .map_err(|why| failed(wire, why))
        .ok()
}

// Lets the line fall silent after an ask that was lost, so that a late reply is not taken for the next one's. Where it does not, or
// the device fails, that is said.
pub fn silent_again(wire: &Wire) -> bool {
    drained(wire, AFTER_A_LOSS)
}

fn failed(wire: &Wire, why: io::Error) {
    say::new_line(wire.rt, wire.terminal);
    say::failed(wire.rt, wire.device, why);
}

fn drained(wire: &Wire, quiet: u8) -> bool {
    match drain(wire, quiet) {
        Ok(true) => true,
        Ok(false) => {
            say::new_line(wire.rt, wire.terminal);
            say::never_silent(wire.rt, wire.device);
            false
        }
        Err(why) => {
            failed(wire, why);
            false
        }
    }
}

// Throws away what comes until so many reads in a row are silent: whether they are, before all the reads that a drain has are over.
fn drain(wire: &Wire, quiet: u8) -> io::Result<bool> {
    let mut left = quiet;
    for _ in 0..DRAIN_READS {
        let mut chunk = [0u8; CHUNK];
        match read_on(wire, &mut chunk, 0)? {
            Some(_) => left = quiet,
            None => {
                if left <= 1 {
                    return Ok(true);
                }
                left -= 1;
            }
        }
    }
    Ok(false)
}

fn gather(wire: &Wire, full: usize, reply: &mut [u8]) -> io::Result<usize> {
    let mut n: usize = 0;
    let mut silent: u8 = 0;
    for _ in 0..GATHER_READS {
        match read_on(wire, reply, n)? {
            Some(after) => {
                n = after;
                silent = 0;
            }
            None => silent = silent.saturating_add(1),
        }
        if is_over(wire.refuses, full, front(reply, n), silent) {
            return Ok(n);
        }
    }
    Ok(n)
}

fn is_over(refuses: bool, full: usize, reply: &[u8], silent: u8) -> bool {
    if refuses {
        return polling::is_over(full, reply, silent);
    }
    polling::is_enough(full, reply.len(), silent)
}

// One read, to the bytes behind the first n of a buffer.
fn read_on(wire: &Wire, buffer: &mut [u8], n: usize) -> io::Result<Option<usize>> {
    if buffer.len() <= n {
        return Ok(None);
    }
    let mut line = &wire.line;
    let got = line.read(&mut buffer[n..])?;
    if got == 0 {
        return Ok(None);
    }
    Ok(Some(n + got))
}
