// A file as a whole: read into a lent buffer, written anew, or made where there was none. A power cut while one is written anew
// leaves the old file or the new one. A lock keeps a second program from the same file or line: a file that names the process that
// holds it. And what a program asks of the machine: its clock, a serial line, and the words that it was called with.
#![tactic(auto)]

mod arguments;
mod beside;
mod device;
mod kept;
mod link;
mod lock;
mod machine_clock;
mod path;
mod reading;
mod reason;
mod writing;

pub use arguments::{word, word_count};
pub use device::open_device;
pub use link::{file_lock_name, line_lock_name, resolved};
pub use lock::{Lock, locked, unlocked};
pub use machine_clock::seconds;
pub use path::{PATH_ROOM, as_text};
pub use reading::{contents, read_full};
pub use reason::fail;
pub use writing::{made, stored};

#[cfg(test)]
mod tests;
