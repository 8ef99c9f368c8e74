// A reader's bytes, a line at a time. They are read in blocks: a read gives what is there, so a person who types is answered at
// once, and a script takes few reads.
use std::io;
use std::io::Read;

// What of a block is yet to be taken: from one place up to another.
#[derive(Clone, Copy)]
pub struct Rest {
    pub at: usize,
    pub end: usize,
}

#[derive(Clone, Copy)]
pub struct Taken {
    pub ended: bool,
    // Of the line, without the newline and a carriage return before it.
    pub length: usize,
    pub rest: Rest,
}

const NEWLINE: u8 = b'\n';

const COMMENT: u8 = b'#';

// What no call is named.
const UNREAD: u8 = b'?';

// The longest line that is read, and its carriage return.
pub const LINE_ROOM: usize = 4097;

// The next line to the front of a lent buffer, which has a byte more than the longest line. The last line may lack its newline. A line
// that does not fit is read to its end all the same, and is given as `?` alone, or as a comment if it is one.
pub fn next_line<R: Read>(
    reader: &mut R,
    block: &mut [u8],
    from: Rest,
    line: &mut [u8],
) -> io::Result<Taken> {
    let mut rest = from;
    let mut n: usize = 0;
    let mut long = false;
    // Nothing says that the input ends: this many bytes no line has.
    for _ in 0..u64::MAX {
        rest = filled(reader, block, rest)?;
        let at = rest.at;
        if rest.end <= at {
            return Ok(last_line(line, n, long));
        }
        rest.at = at + 1;
        let byte = byte_numbers::byte_at(block, at);
        if byte == NEWLINE {
            return Ok(Taken {
                ended: false,
                length: fitting(line, n, long),
                rest,
            });
        }
        // Stored where there is room.
        byte_numbers::put_byte(line, n, byte);
        if n < line.len() {
            n += 1;
        } else {
            long = true;
        }
    }
    Ok(ended())
}

// Another block where all of this one is taken.
fn filled<R: Read>(reader: &mut R, block: &mut [u8], rest: Rest) -> io::Result<Rest> {
    if rest.at < rest.end {
        return Ok(rest);
    }
    let end = reader.read(block)?;
    Ok(Rest { at: 0, end })
}

fn ended() -> Taken {
    Taken {
        ended: true,
        length: 0,
        rest: Rest { at: 0, end: 0 },
    }
}

fn last_line(line: &mut [u8], n: usize, long: bool) -> Taken {
    if n == 0 {
        return ended();
    }
    Taken {
        ended: false,
        length: fitting(line, n, long),
        rest: Rest { at: 0, end: 0 },
    }
}

// How long the line is.
fn fitting(line: &mut [u8], n: usize, long: bool) -> usize {
    if long {
        return too_long(line);
    }
    let length = console::without_return(console::part(line, n)).len();
    if length < line.len() {
        return length;
    }
    too_long(line)
}

fn too_long(line: &mut [u8]) -> usize {
    if byte_numbers::byte_at(line, 0) != COMMENT {
        byte_numbers::put_byte(line, 0, UNREAD);
    }
    1
}
