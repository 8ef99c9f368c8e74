// A new file beside another.
use crate::path::{as_text, put_joined};
use paths_and_locks::{folder_of, front};
use std::fs::{File, OpenOptions};
use std::io;
use std::io::ErrorKind;
use std::os::unix::fs::OpenOptionsExt;
use std::random::RandomSource;

// Open for writing.
#[derive(Drop)]
pub struct Beside {
    pub file: File,
    // Of its name, from the front of the lent buffer on.
    pub length: usize,
}

// What a name of its own ends in: a dot, and then letters.
const LETTERS: usize = 6;

const ENDING: usize = 1 + LETTERS;

const LETTER: [u8; 62] = *b"ABCDEFGHIJKLMNOPQRSTUVWXYZabcdefghijklmnopqrstuvwxyz0123456789";

// Names that are tried.
const TRIES: u16 = 1000;

// Open to its owner alone.
const OWN_RIGHTS: u32 = 0o600;

// Makes a file under a name that nobody else has, so that no two programs write to the same one.
pub fn new_beside(rt: HostRuntime, path: &[u8], name: &mut [u8]) -> io::Result<Beside> {
    for _ in 0..TRIES {
        let length = put_joined(name, path, &own_ending(rt)?)?;
        let made = OpenOptions::new()
            .read(true)
            .write(true)
            .create_new(true)
            .mode(OWN_RIGHTS)
            .open(&rt, as_text(front(name, length))?);
        match made {
            Ok(file) => return Ok(Beside { file, length }),
            Err(e) if e.kind() == ErrorKind::AlreadyExists => {}
            Err(e) => return Err(e),
        }
    }
    Err(io::Error::from(ErrorKind::AlreadyExists))
}

// A dot and letters by chance.
fn own_ending(rt: HostRuntime) -> io::Result<[u8; ENDING]> {
    let mut b = [0u8; LETTERS];
    rt.fill_bytes(&mut b)?;
    Ok([
        b'.',
        letter(b[0]),
        letter(b[1]),
        letter(b[2]),
        letter(b[3]),
        letter(b[4]),
        letter(b[5]),
    ])
}

fn letter(b: u8) -> u8 {
    LETTER[b as usize % LETTER.len()]
}

// Makes a file that was not there, with the rights of any file that is made.
pub fn new_file(rt: HostRuntime, path: &[u8]) -> io::Result<File> {
    OpenOptions::new()
        .write(true)
        .create_new(true)
        .open(&rt, as_text(path)?)
}

// Sees that a name which a file was given or lost stays so after a power cut. Where the system has no way to, it is left.
pub fn settle(rt: HostRuntime, path: &[u8]) {
    let _ = settled(rt, folder_of(path));
}

fn settled(rt: HostRuntime, folder: &[u8]) -> io::Result<()> {
    let name = if folder.is_empty() {
        "."
    } else {
        as_text(folder)?
    };
    File::open(&rt, name)?.sync_all()
}
