// The first word of a line, by its place among the names of the log's and the reader's lines.
pub const LOG: usize = 0;

pub const LOAD: usize = 1;

pub const ASK: usize = 2;

pub const LAPSE: usize = 3;

pub const REPLY: usize = 4;

pub const SAVE: usize = 5;

pub const OPEN: usize = 6;

pub const CELL: usize = 7;

pub const REPORT: usize = 8;

pub const REQUEST: usize = 9;

pub const DECODE: usize = 10;

pub const REQUEST_DISPLAYED: usize = 11;

pub const DECODE_DISPLAYED: usize = 12;

pub const HELP: usize = 13;

// A line that is passed over.
pub const NOTHING: usize = 14;

// One about the Mercury 206. What has none of the names is left to the meter.
pub const MERCURY: usize = 15;

pub fn verb_of(line: &[u8]) -> usize {
    if console::is_passed_over(line) {
        return NOTHING;
    }
    if console_mercury::is_named(line) {
        return MERCURY;
    }
    console::place_of(
        console::word(line, 0),
        b"log load ask lapse reply save open cell report request decode request4 decode4 help",
    )
}
