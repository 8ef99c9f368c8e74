// What a file that is written anew keeps: its rights and its owner.
use crate::path::INVALID;
use std::fs::{File, Permissions};
use std::io;
use std::os::unix::fs::{MetadataExt, PermissionsExt, fchown};

// Of a file's mode, what lies above the rights: its kind.
const KIND: u32 = 4096;

// Gives a new file the rights and, as far as the user may, the owner and the group of an old one. What is no regular file is none to be
// replaced.
pub fn kept(old: &File, new: &File) -> io::Result<()> {
    let known = old.metadata()?;
    if !known.is_file() {
        return Err(io::Error::from_raw_os_error(INVALID));
    }
    // A user gives away no file, and gives a file no group but one of their own.
    if fchown(new, Some(known.uid()), Some(known.gid())).is_err() {
        let _ = fchown(new, None, Some(known.gid()));
    }
    new.set_permissions(Permissions::from_mode(known.mode() % KIND))
}
