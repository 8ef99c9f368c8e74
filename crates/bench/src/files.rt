// The log's file.
use console_io::say;
use console_log::ConsoleLog;
use log_file::FILE_MOST;
use refusal::Numbered;
use std::io;

// One byte more than the longest file, so that a longer one shows by its length.
const READ_ROOM: usize = FILE_MOST + 1;

pub fn load(
    rt: HostRuntime,
    line: &[u8],
    image: &mut [u8],
    figures: &mut [u32],
    kept: ConsoleLog,
) -> ConsoleLog {
    if console::spaces(line) != 1 {
        say::unread(rt);
        return kept;
    }
    let mut bytes = [0u8; READ_ROOM];
    match file_io::contents(rt, console::word(line, 1), &mut bytes) {
        Ok(n) => console_log::loaded(rt, console::part(&bytes, n), image, figures, kept),
        Err(why) => {
            failed(rt, console::word(line, 1), why);
            kept
        }
    }
}

pub fn save(rt: HostRuntime, line: &[u8], image: &[u8]) {
    if console::spaces(line) != 1 {
        say::unread(rt);
        return;
    }
    let mut bytes = [0u8; FILE_MOST];
    let n = match log_file::write_file(image, &mut bytes) {
        Ok(n) => n,
        Err(error) => return say::number_line(rt, error.number()),
    };
    match file_io::stored(rt, console::word(line, 1), console::part(&bytes, n)) {
        Ok(()) => say::number_line(rt, refusal::DONE),
        Err(why) => failed(rt, console::word(line, 1), why),
    }
}

// Why, and the answer.
fn failed(rt: HostRuntime, path: &[u8], why: io::Error) {
    let _ = rt.stderr().write_all(b"bench: ");
    file_io::fail(rt.stderr(), path, why);
    say::failed(rt);
}
