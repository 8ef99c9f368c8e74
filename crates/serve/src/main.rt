// The bench meter on a serial line: it is made by a script of the console's lines, and then answers the frames that come in. What is
// right is decided in the libraries.
#![tactic(auto)]

mod bench;
mod help;
mod line;
mod say;
mod script;

use bench::Bench;
use file_io::PATH_ROOM;

// Where the words of `serve DEVICE SCRIPT COUNT` stand.
const DEVICE: usize = 1;

const SCRIPT: usize = 2;

const COUNT: usize = 3;

// The program's own name, DEVICE and SCRIPT.
const WORDS: usize = 3;

// And COUNT.
const COUNTED_WORDS: usize = 4;

fn main(rt: HostRuntime) {
    match file_io::word_count(rt) {
        // Nothing says that a device is closed: this many frames no run has.
        WORDS => made(rt, u64::MAX),
        COUNTED_WORDS => counted(rt),
        _ => help::say(rt),
    }
}

fn counted(rt: HostRuntime) {
    let mut room = [0u8; PATH_ROOM];
    match text::number_of(file_io::word(rt, COUNT, &mut room)) {
        Some(count) => made(rt, count),
        None => say::wrong_count(rt),
    }
}

// The meter is made first, so that a script that stops leaves the device alone.
fn made(rt: HostRuntime, count: u64) {
    let mut store = [0u8; meter_store::STORE_BYTES];
    let mut room = [0u8; PATH_ROOM];
    let path = file_io::word(rt, SCRIPT, &mut room);
    if let Some(bench) = script::made_by(rt, path, &mut store) {
        opened(rt, count, &mut store, bench);
    }
}

fn opened(rt: HostRuntime, count: u64, store: &mut [u8], bench: Bench) {
    let mut room = [0u8; PATH_ROOM];
    let path = file_io::word(rt, DEVICE, &mut room);
    match file_io::open_device(rt, path) {
        Ok(line) => {
            say::waiting(rt, path, bench);
            line::serve(rt, &line, count, path, store, bench);
        }
        Err(why) => say::failed(rt, path, why),
    }
}
