// What no clause says: files of the system, written, read, kept and locked.
use crate::{
    Lock, PATH_ROOM, contents, file_lock_name, line_lock_name, locked, made, stored, unlocked,
};
use paths_and_locks::front;
use std::fs::Permissions;
use std::os::unix::fs::{MetadataExt, PermissionsExt, symlink};
use std::test::Fail;
use std::{fs, io};

// What a run that was cut off may have left.
fn cleared(rt: HostRuntime, names: &[&str]) {
    for name in names {
        let _ = fs::remove_file(&rt, *name);
    }
}

fn read(rt: HostRuntime, path: &[u8], room: &mut [u8; 16]) -> io::Result<usize> {
    contents(rt, path, room)
}

// A file is made where there was none, and written anew under its rights; a link to it stays one.
#[test]
fn files(rt: HostRuntime) -> Result<(), Fail> {
    cleared(rt, &["link.tmp", "new.tmp", "one.tmp"]);
    let mut room = [0u8; 16];
    made(rt, b"one.tmp", b"first")?;
    let again = made(rt, b"one.tmp", b"second").is_err();
    assert!(rt; again);
    let n = read(rt, b"one.tmp", &mut room)?;
    assert_eq!(rt; front(&room, n), b"first".as_slice());
    fs::set_permissions(&rt, "one.tmp", Permissions::from_mode(0o640))?;
    symlink(&rt, "one.tmp", "link.tmp")?;
    stored(rt, b"link.tmp", b"third")?;
    stored(rt, b"new.tmp", b"fourth")?;
    let n = read(rt, b"one.tmp", &mut room)?;
    assert_eq!(rt; front(&room, n), b"third".as_slice());
    let n = read(rt, b"new.tmp", &mut room)?;
    assert_eq!(rt; front(&room, n), b"fourth".as_slice());
    let rights = fs::metadata(&rt, "one.tmp")?.mode() % 4096;
    assert_eq!(rt; rights, 0o640);
    let is_link = fs::symlink_metadata(&rt, "link.tmp")?.is_symlink();
    assert!(rt; is_link);
    fs::remove_file(&rt, "link.tmp")?;
    fs::remove_file(&rt, "new.tmp")?;
    fs::remove_file(&rt, "one.tmp")?;
    let missing = read(rt, b"one.tmp", &mut room).is_err();
    assert!(rt; missing);
    Ok(())
}

// A lock is held until it is given up, one of a process that lives is not taken, and one of a process that does not is.
#[test]
fn locks(rt: HostRuntime) -> Result<(), Fail> {
    cleared(rt, &["log.tmp.lock"]);
    let mut name = [0u8; PATH_ROOM];
    let n = file_lock_name(rt, b"log.tmp", &mut name)?;
    let lock = front(&name, n);
    assert_eq!(rt; lock, b"log.tmp.lock".as_slice());
    let held = matches!(locked(rt, lock)?, Lock::Held);
    assert!(rt; held);
    unlocked(rt, lock);
    let gone = fs::metadata(&rt, "log.tmp.lock").is_err();
    assert!(rt; gone);
    made(rt, lock, b"         1\n")?;
    let by_first = matches!(locked(rt, lock)?, Lock::By(1));
    assert!(rt; by_first);
    fs::remove_file(&rt, "log.tmp.lock")?;
    made(rt, lock, b"2147483647\n")?;
    let taken_over = matches!(locked(rt, lock)?, Lock::Held);
    assert!(rt; taken_over);
    unlocked(rt, lock);
    let n = line_lock_name(rt, b"/dev/null", &mut name)?;
    assert_eq!(rt; front(&name, n), b"/var/lock/LCK..null".as_slice());
    Ok(())
}
