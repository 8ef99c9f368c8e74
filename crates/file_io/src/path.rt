// Paths as the system takes them.
ghost use Rattle.std.specs.Prelude.{◌≡◌, IfOk, IfErr, Some, pos};
ghost use Rattle.std.specs.IoError.{raw_os_error};
ghost use Rattle.file_io.specs.Path.{IsPath, path_fault};

use paths_and_locks::joined;
use std::io;
use std::str::from_utf8;

// Holds any path, and a byte more: the system takes none of so many bytes.
pub const PATH_ROOM: usize = 4096;

// The system's numbers for what is wrong with a path: a byte 0 in it, its length, its characters, and links that lead to no end.
pub const INVALID: i32 = 22;

const TOO_LONG: i32 = 36;

pub const CHARACTERS: i32 = 84;

pub const LINKS: i32 = 40;

// A path as the system takes it, as text.
pub fn as_text(path: &[u8]) -> io::Result<&str>
    ensures taken { IfOk result (λ text. text.now ≡ path.now) }
    ensures path { IfOk result (λ text. IsPath path.now) }
    ensures fault { IfErr result (λ e. raw_os_error e ≡ Some (pos (path_fault path.now))) }
    ensures refused { IfErr result (λ e. ¬ (IsPath path.now)) }
{
    if PATH_ROOM <= path.len() {
        return Err(io::Error::from_raw_os_error(TOO_LONG));
    }
    if path.contains(&0) {
        return Err(io::Error::from_raw_os_error(INVALID));
    }
    from_utf8(path).map_err(|_| io::Error::from_raw_os_error(CHARACTERS))
}

// Puts two texts, one behind the other, to the front of a buffer, where they are no longer than a path may be.
pub fn put_joined(out: &mut [u8], xs: &[u8], ys: &[u8]) -> io::Result<usize> {
    joined(out, xs, ys).ok_or_else(|| io::Error::from_raw_os_error(TOO_LONG))
}
