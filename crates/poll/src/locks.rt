// One poll at a time: a lock for the log's file, beside it, and one for the line, by the custom of serial programs.
use file_io::Lock;
use paths_and_locks::front;
use poll_words::say;
use std::io;

// What a lock is for.
#[derive(Clone, Copy)]
pub enum Kind {
    LogFile,
    Line,
}

// Takes the lock that keeps a file or a line for this poll.
pub fn take(rt: HostRuntime, kind: Kind, what: &[u8], path: &mut [u8]) -> Option<usize> {
    let n = name_of(rt, kind, what, path)
        .map_err(|why| say::failed(rt, what, why))
        .ok()?;
    is_taken(rt, what, front(path, n)).then_some(n)
}

fn name_of(rt: HostRuntime, kind: Kind, what: &[u8], path: &mut [u8]) -> io::Result<usize> {
    match kind {
        Kind::LogFile => file_io::file_lock_name(rt, what, path),
        Kind::Line => file_io::line_lock_name(rt, what, path),
    }
}

fn is_taken(rt: HostRuntime, what: &[u8], path: &[u8]) -> bool {
    match file_io::locked(rt, path) {
        Ok(Lock::Held) => true,
        Ok(Lock::By(process)) => say::held(rt, what, path, process),
        Ok(Lock::Unreadable) => say::unreadable(rt, what, path),
        Err(why) => say::failed(rt, path, why),
    }
}

pub fn left(rt: HostRuntime, path: &[u8]) {
    file_io::unlocked(rt, path);
}
