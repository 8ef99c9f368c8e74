// The serial line that a word names, as the system opens it.
use crate::path::as_text;
use std::fs::{File, OpenOptions};
use std::io;

// For reading and writing.
pub fn open_device(rt: HostRuntime, device: &[u8]) -> io::Result<File> {
    OpenOptions::new()
        .read(true)
        .write(true)
        .open(&rt, as_text(device)?)
}
