// The file of a log: its header, a row for each of its cells with its lapses, and their CRC-16. A log is written to the front of a lent buffer
// once all its cells are seen to be good, and gaps without lapses where their slots do not exist; a file, of today's version or an earlier one, is
// checked in document 01's order, and then its header and its cells, read row by row, are put into an image. What a row looks like is said here, and
// how a log lies in memory in the crate log alone.
#![tactic(auto)]

mod cursor;
mod file;
mod missing;
mod read;
mod row;
mod version;
mod walk;
mod write;

pub use file::{FILE_MOST, file_length};
pub use read::{ReadError, read_file};
pub use write::{WriteError, write_file};
