// Messages, on standard error, by the program's name.
use crate::bench::Bench;
use std::io;

// A file or the device failed, and why.
pub fn failed(rt: HostRuntime, path: &[u8], why: io::Error) {
    put(rt, b"serve: ");
    file_io::fail(rt.stderr(), path, why);
}

pub fn wrong_count(rt: HostRuntime) {
    put(rt, b"serve: COUNT is a number of frames\n");
}

// What it waits for.
pub fn waiting(rt: HostRuntime, device: &[u8], bench: Bench) {
    match bench {
        Bench::Meter(record) => {
            put(rt, b"serve: answering as meter ");
            decimal(rt, u64::from(record.address));
        }
        Bench::Mercury(m) => {
            put(rt, b"serve: answering as Mercury 206 ");
            decimal(rt, u64::from(m.address));
        }
    }
    on(rt, device);
}

fn on(rt: HostRuntime, device: &[u8]) {
    put(rt, b" on ");
    put(rt, device);
    put(rt, b"; a frame is what one read gives: ");
    setting(rt, device);
}

pub fn reads_nothing(rt: HostRuntime, device: &[u8]) {
    put(rt, b"serve: ");
    put(rt, device);
    put(
        rt,
        b": a read gave nothing, as it does on a line set to min 0: ",
    );
    setting(rt, device);
}

// The line's own timer ends a frame at a pause.
fn setting(rt: HostRuntime, device: &[u8]) {
    put(rt, b"stty -F ");
    put(rt, device);
    put(rt, b" raw -echo min 64 time 1\n");
}

pub fn ended(rt: HostRuntime, read: u64, answered: u64) {
    put(rt, b"serve: ");
    decimal(rt, read);
    put(rt, b" frames read, ");
    decimal(rt, answered);
    put(rt, b" answered\n");
}

// A line of the script that was refused.
pub fn refused(rt: HostRuntime, path: &[u8], number: u64, n: u8) {
    place(rt, path, number);
    console_io::say::refused(rt, n);
}

// One that could not be read.
pub fn unread(rt: HostRuntime, path: &[u8], number: u64) {
    place(rt, path, number);
    put(rt, b"not read\n");
}

// serve: SCRIPT:NUMBER:
fn place(rt: HostRuntime, path: &[u8], number: u64) {
    put(rt, b"serve: ");
    put(rt, path);
    put(rt, b":");
    decimal(rt, number);
    put(rt, b": ");
}

// What cannot be written is left out.
fn put(rt: HostRuntime, bytes: &[u8]) {
    let _ = rt.stderr().write_all(bytes);
}

fn decimal(rt: HostRuntime, n: u64) {
    let _ = rt.stderr().print(n);
}
