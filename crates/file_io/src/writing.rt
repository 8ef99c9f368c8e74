// Writing.
use crate::beside::{Beside, new_beside, new_file, settle};
use crate::kept::kept;
use crate::link::resolved;
use crate::path::{PATH_ROOM, as_text};
use paths_and_locks::front;
use std::fs::File;
use std::io::{ErrorKind, Write};
use std::{fs, io};

// Writes a file anew under a name of its own, and then gives it its path, so that a file which was there is whole until then, and stays
// as it was where this fails. It keeps the old file's rights; a symbolic link stays one, and what it leads to is written anew.
pub fn stored(rt: HostRuntime, path: &[u8], bytes: &[u8]) -> io::Result<()> {
    let mut real = [0u8; PATH_ROOM];
    let n = resolved(rt, path, &mut real)?;
    replaced(rt, front(&real, n), bytes)
}

fn replaced(rt: HostRuntime, path: &[u8], bytes: &[u8]) -> io::Result<()> {
    let mut name = [0u8; PATH_ROOM];
    let Beside { file, length } = new_beside(rt, path, &mut name)?;
    let file = with_rights(rt, path, front(&name, length), file)?;
    put_under(rt, path, front(&name, length), file, bytes)
}

// The new file with the old one's rights, or, where there is no old one, with those of any file that is made. Where neither can be had,
// it is gone.
fn with_rights(rt: HostRuntime, path: &[u8], name: &[u8], file: File) -> io::Result<File> {
    match File::open(&rt, as_text(path)?) {
        Ok(old) => {
            kept(&old, &file).inspect_err(|_| remove(rt, name))?;
            Ok(file)
        }
        Err(e) => {
            remove(rt, name);
            if e.kind() == ErrorKind::NotFound {
                // One that is made under a name of its own is open to its owner alone.
                return new_file(rt, name);
            }
            Err(e)
        }
    }
}

// Where it cannot be removed, it is left.
pub fn remove(rt: HostRuntime, path: &[u8]) {
    if let Ok(name) = as_text(path) {
        let _ = fs::remove_file(&rt, name);
    }
}

pub fn renamed(rt: HostRuntime, from: &[u8], to: &[u8]) -> io::Result<()> {
    fs::rename(&rt, as_text(from)?, as_text(to)?)
}

fn put_under(
    rt: HostRuntime,
    path: &[u8],
    name: &[u8],
    file: File,
    bytes: &[u8],
) -> io::Result<()> {
    put_all(file, bytes)
        .and_then(|()| renamed(rt, name, path))
        .inspect_err(|_| remove(rt, name))?;
    settle(rt, path);
    Ok(())
}

// Makes a file that was not there: a file with this name is left as it is, and is a failure.
pub fn made(rt: HostRuntime, path: &[u8], bytes: &[u8]) -> io::Result<()> {
    let file = new_file(rt, path)?;
    put_all(file, bytes).inspect_err(|_| remove(rt, path))?;
    settle(rt, path);
    Ok(())
}

// Writes all bytes, sees that they are on the disk, and closes the file.
fn put_all(mut file: File, bytes: &[u8]) -> io::Result<()> {
    file.write_all(bytes)?;
    file.sync_all()
}
