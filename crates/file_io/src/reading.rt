// Reading.
ghost use Rattle.std.specs.Prelude.{◌≤◌, length, IfOk};

use crate::path::as_text;
use std::fs::File;
use std::io;
use std::io::Read;

// The file's bytes, to the front of a lent buffer, and how many they are. A buffer that is filled does not tell whether the file goes
// on: one byte more than the longest file that is taken shows a longer one by its length.
pub fn contents(rt: HostRuntime, path: &[u8], bytes: &mut [u8]) -> io::Result<usize> {
    let mut file = File::open(&rt, as_text(path)?)?;
    read_full(&mut file, bytes)
}

// Reads until the buffer is full or there is no more.
pub fn read_full<R: Read>(reader: &mut R, bytes: &mut [u8]) -> io::Result<usize>
    ensures { IfOk result (λ n. n ≤ length bytes.new) }
{
    let mut done = 0;
    // A read that gives nothing is the end.
    for _ in 0..bytes.len() {
        if bytes.len() <= done {
            return Ok(done);
        }
        let n = reader.read(&mut bytes[done..])?;
        if n == 0 {
            return Ok(done);
        }
        done += n;
    }
    Ok(done)
}
