// Locks: files that name the process that holds them.
use crate::beside::{Beside, new_beside, new_file};
use crate::path::{PATH_ROOM, as_text};
use crate::reading::contents;
use crate::writing::{remove, renamed};
use paths_and_locks::{front, holder_of, put_holder};
use std::fs::{File, Permissions};
use std::io::{ErrorKind, Write};
use std::os::unix::fs::PermissionsExt;
use std::time::Duration;
use std::{fs, io, process, thread};

#[derive(Clone, Copy)]
pub enum Lock {
    // By this process, from now on.
    Held,
    // By this one.
    By(u32),
    // There is one, and it names no process.
    Unreadable,
}

// What a look at a lock shows.
#[derive(Clone, Copy, PartialEq, Eq)]
enum Look {
    Process(u32),
    NoNumber,
    Gone,
}

// A lock's text.
const TEXT: usize = 11;

// More of a file than any lock's number needs.
const LOOKED_AT: usize = 64;

// Tries before a lock without a number is given up, with a wait between them.
const TRIES: u8 = 4;

// Thousandths of a second, which a take-over waits.
const TAKE_OVER: u64 = 1200;

const BETWEEN_TRIES: u64 = 700;

// Open to be read by all, as a lock has to be.
const RIGHTS: u32 = 0o644;

// Where the system shows each process that lives, by its number.
const PROCESSES: &[u8] = b"/proc/";

// Longer than that and any number.
const PROCESS_ROOM: usize = 16;

// The process that always lives.
const FIRST: u32 = 1;

// A process's number has the system's 32 bits with a sign.
const LARGEST: u32 = 2147483647;

// Takes a lock for this process. One of a process that lives no more is taken over. A lock that names this process is such a one, too:
// it was another's, that had its number.
pub fn locked(rt: HostRuntime, path: &[u8]) -> io::Result<Lock> {
    for turn in 0..TRIES {
        match tried(rt, path)? {
            // It may just be being made.
            Some(Lock::Unreadable) => {
                if turn < TRIES - 1 {
                    thread::sleep(&rt, Duration::from_millis(BETWEEN_TRIES));
                }
            }
            Some(lock) => return Ok(lock),
            None => {}
        }
    }
    Ok(Lock::Unreadable)
}

// Gives a lock up, if it is this process's.
pub fn unlocked(rt: HostRuntime, path: &[u8]) {
    if holds(rt, path, own_number(rt)) {
        remove(rt, path);
    }
}

// What one try comes to: nothing where the lock was there, and is no more.
fn tried(rt: HostRuntime, path: &[u8]) -> io::Result<Option<Lock>> {
    match new_file(rt, path) {
        Ok(file) => {
            put_own(rt, file).inspect_err(|_| remove(rt, path))?;
            Ok(Some(Lock::Held))
        }
        Err(e) if e.kind() == ErrorKind::AlreadyExists => looked_at(rt, path),
        Err(e) => Err(e),
    }
}

fn looked_at(rt: HostRuntime, path: &[u8]) -> io::Result<Option<Lock>> {
    match found(rt, path) {
        Look::Process(pid) if lives(rt, pid) => Ok(Some(Lock::By(pid))),
        Look::Process(pid) => taken_over(rt, path, pid),
        Look::NoNumber => Ok(Some(Lock::Unreadable)),
        Look::Gone => Ok(None),
    }
}

fn found(rt: HostRuntime, path: &[u8]) -> Look {
    let mut bytes = [0u8; LOOKED_AT];
    match contents(rt, path, &mut bytes) {
        Ok(n) => holder_of(front(&bytes, n)).map_or(Look::NoNumber, Look::Process),
        Err(e) if e.kind() == ErrorKind::NotFound => Look::Gone,
        Err(_) => Look::NoNumber,
    }
}

fn holds(rt: HostRuntime, path: &[u8], pid: u32) -> bool {
    found(rt, path) == Look::Process(pid)
}

// Whether another process has this number. One that this user may not ask after has, and where the system shows nobody others'
// processes, any may.
fn lives(rt: HostRuntime, pid: u32) -> bool {
    pid != own_number(rt) && pid <= LARGEST && (is_shown(rt, pid) || !is_shown(rt, FIRST))
}

fn is_shown(rt: HostRuntime, pid: u32) -> bool {
    let mut name = [0u8; PROCESS_ROOM];
    byte_numbers::put_bytes(&mut name, 0, PROCESSES);
    let digits = text::put_decimal(&mut name, PROCESSES.len(), u64::from(pid));
    let length = PROCESSES.len().saturating_add(digits);
    !known(rt, front(&name, length)).is_err_and(|e| e.kind() == ErrorKind::NotFound)
}

fn known(rt: HostRuntime, path: &[u8]) -> io::Result<()> {
    fs::metadata(&rt, as_text(path)?)?;
    Ok(())
}

fn own_number(rt: HostRuntime) -> u32 {
    process::id(rt.process())
}

fn put_own(rt: HostRuntime, mut file: File) -> io::Result<()> {
    let mut bytes = [0u8; TEXT];
    put_holder(&mut bytes, own_number(rt));
    file.write_all(&bytes)
}

// Puts a lock of this process in the place of one whose process lives no more. Several may do so at once: the last one's stays, which
// each sees after a wait that is longer than the others take from their look at the lock to their change of it.
fn taken_over(rt: HostRuntime, path: &[u8], stale: u32) -> io::Result<Option<Lock>> {
    let mut name = [0u8; PATH_ROOM];
    let Beside { file, length } = new_beside(rt, path, &mut name)?;
    let name = front(&name, length);
    let _ = file.set_permissions(Permissions::from_mode(RIGHTS));
    put_own(rt, file).inspect_err(|_| remove(rt, name))?;
    if !holds(rt, path, stale) {
        remove(rt, name);
        return Ok(None);
    }
    renamed(rt, name, path).inspect_err(|_| remove(rt, name))?;
    thread::sleep(&rt, Duration::from_millis(TAKE_OVER));
    Ok(after_the_wait(rt, path))
}

fn after_the_wait(rt: HostRuntime, path: &[u8]) -> Option<Lock> {
    match found(rt, path) {
        Look::Process(pid) if pid == own_number(rt) => Some(Lock::Held),
        Look::Process(pid) => Some(Lock::By(pid)),
        Look::NoNumber => Some(Lock::Unreadable),
        Look::Gone => None,
    }
}
