// Why a call of the system failed, in its own words.
use paths_and_locks::front;
use std::fmt::Write;
use std::rt::Stderr;
use std::{fmt, io};

// More than any reason needs.
const ROOM: usize = 256;

#[derive(Drop)]
struct Words {
    bytes: [u8; ROOM],
    length: usize,
}

// As much as there is room for.
impl Write for Words {
    fn write_str(&mut self, s: &str) -> fmt::Result {
        let bytes = s.as_bytes();
        byte_numbers::put_bytes(&mut self.bytes, self.length, bytes);
        self.length = self.length.saturating_add(bytes.len());
        Ok(())
    }
}

// What the library puts behind the system's words: its number for them.
const NUMBER: &[u8] = b" (os error ";

// Writes a line to standard error: what failed, as the caller names it, a colon and the reason.
pub fn fail(err: Stderr, what: &[u8], e: io::Error) {
    let mut words = Words {
        bytes: [0; ROOM],
        length: 0,
    };
    let _ = write!(words, "{e}");
    let reason = front(&words.bytes, words.length);
    let _ = err.write_all(what);
    let _ = err.write_all(b": ");
    let _ = err.write_all(before_number(reason));
    let _ = err.write_all(b"\n");
}

fn before_number(reason: &[u8]) -> &[u8] {
    let found = reason.windows(NUMBER.len()).position(|w| w == NUMBER);
    found.map_or(reason, |n| front(reason, n))
}
