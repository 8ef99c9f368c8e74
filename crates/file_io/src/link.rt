// Paths behind symbolic links, and the names of locks.
use crate::path::{CHARACTERS, LINKS, PATH_ROOM, as_text, put_joined};
use paths_and_locks::{base_of, front, start_of};
use std::fs::File;
use std::io::ErrorKind;
use std::{fs, io};

// The system follows no more links than these.
const LINKS_MOST: u8 = 40;

// A path to the file itself where the path names a symbolic link, or a link to a link: the links of its last name are followed. A
// name that is not there is where the walk ends. The path stands at the front of the lent buffer, and the answer is its length.
pub fn resolved(rt: HostRuntime, path: &[u8], out: &mut [u8]) -> io::Result<usize> {
    as_text(path)?;
    let mut n = put_joined(out, path, b"")?;
    for _ in 0..LINKS_MOST {
        let Some(m) = stepped(rt, out, n)? else {
            return Ok(n);
        };
        n = m;
    }
    // The system says what is wrong with it.
    File::open(&rt, as_text(path)?)?;
    Err(io::Error::from_raw_os_error(LINKS))
}

// The path in the buffer's first bytes gives way to the one that its link leads to: nothing where it names no link.
fn stepped(rt: HostRuntime, out: &mut [u8], n: usize) -> io::Result<Option<usize>> {
    let mut next = [0u8; PATH_ROOM];
    let Some(m) = followed(rt, front(out, n), &mut next)? else {
        return Ok(None);
    };
    Ok(Some(put_joined(out, front(&next, m), b"")?))
}

// Where one link leads to.
fn followed(rt: HostRuntime, path: &[u8], next: &mut [u8]) -> io::Result<Option<usize>> {
    match fs::read_link(&rt, as_text(path)?) {
        Ok(link) => {
            let words = link.as_str().as_bytes();
            let m = put_joined(next, start_of(path, words), words)?;
            as_text(front(next, m))?;
            Ok(Some(m))
        }
        Err(e) => not_followed(e),
    }
}

// One that the system does not follow is the end. Other errors are no answer of the system's: a link's text that is none is refused as a
// path is.
fn not_followed(why: io::Error) -> io::Result<Option<usize>> {
    if why.raw_os_error().is_some() {
        return Ok(None);
    }
    if why.kind() == ErrorKind::InvalidFilename {
        return Err(io::Error::from_raw_os_error(CHARACTERS));
    }
    Err(why)
}

// The name of a serial line's lock, by the custom of the programs that use one: LCK.. and the device's own name.
pub fn line_lock_name(rt: HostRuntime, device: &[u8], out: &mut [u8]) -> io::Result<usize> {
    let mut real = [0u8; PATH_ROOM];
    let n = resolved(rt, device, &mut real)?;
    put_joined(out, b"/var/lock/LCK..", base_of(front(&real, n)))
}

// The name of a file's lock, which stands beside it.
pub fn file_lock_name(rt: HostRuntime, path: &[u8], out: &mut [u8]) -> io::Result<usize> {
    let mut real = [0u8; PATH_ROOM];
    let n = resolved(rt, path, &mut real)?;
    put_joined(out, front(&real, n), b".lock")
}
