// The words that a program was called with.
use paths_and_locks::front;
use std::env::FillError;
use std::rt::Env;

// How many there are, the program's own name among them.
pub fn word_count(rt: HostRuntime) -> usize {
    for i in 0..usize::MAX {
        if let Err(FillError::NotPresent) = rt.arg(i, &mut []) {
            return i;
        }
    }
    usize::MAX
}

// One of them, in a lent buffer: nothing where it is missing or longer than the buffer.
pub fn word(rt: HostRuntime, i: usize, room: &mut [u8]) -> &[u8] {
    let length = rt.arg(i, room).unwrap_or(0);
    front(room, length)
}
