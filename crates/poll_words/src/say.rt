// Messages and progress, on standard error. What says that something failed answers false, as its caller does then.
use calendar::{Date, DateTime};
use log_header::Header;
use polling::{DAY_MINUTES, Faults, Learned, Order, Passed, Tally};
use reader::Fault;
use refusal::Numbered;
use refusal_words::WORDS_MOST;
use std::io;

// "2024-05-17".
const DATE_BYTES: usize = 10;

// " 13:05".
const TIME_BYTES: usize = 6;

const HOUR_MINUTES: u32 = 60;

// A file or a device that failed, and why.
pub fn failed(rt: HostRuntime, path: &[u8], why: io::Error) -> bool {
    put(rt, b"poll: ");
    file_io::fail(rt.stderr(), path, why);
    false
}

// The log's file could not be written.
pub fn not_saved(rt: HostRuntime, path: &[u8], why: io::Error) {
    put(rt, b"poll: NOT SAVED: the file is as it was: ");
    file_io::fail(rt.stderr(), path, why);
}

// A number of the refusal table.
pub fn refused(rt: HostRuntime, path: &[u8], number: u8) -> bool {
    put(rt, b"poll: ");
    put(rt, path);
    put(rt, b": refused ");
    decimal(rt, u64::from(number));
    put(rt, b": ");
    in_words(rt, number);
    put(rt, b"\n");
    false
}

fn in_words(rt: HostRuntime, number: u8) {
    let mut words = [0u8; WORDS_MOST];
    let n = refusal_words::put_words(number, &mut words);
    put(rt, paths_and_locks::front(&words, n));
}

// What of a Mercury 206's reply is wrong.
pub fn malformed(rt: HostRuntime, device: &[u8], fault: mercury::Fault) -> bool {
    put(rt, b"poll: ");
    put(rt, device);
    put(rt, b": refused ");
    decimal(rt, u64::from(refusal::MERCURY_FORM));
    put(rt, b": the reply's ");
    match fault {
        mercury::Fault::Length => put(rt, b"length"),
        mercury::Fault::Crc => put(rt, b"CRC"),
        mercury::Fault::Address => put(rt, b"address"),
        mercury::Fault::Command => put(rt, b"command"),
    }
    put(rt, b" is wrong\n");
    false
}

pub fn wrong_address(rt: HostRuntime) -> bool {
    put(rt, b"poll: ADDRESS is a number from 0 to 255\n");
    false
}

pub fn wrong_mercury(rt: HostRuntime) -> bool {
    put(
        rt,
        b"poll: ADDRESS is the Mercury 206's number, from 0 to 4294967295\n",
    );
    false
}

pub fn held(rt: HostRuntime, what: &[u8], lock: &[u8], process: u32) -> bool {
    put(rt, b"poll: ");
    put(rt, what);
    put(rt, b": process ");
    decimal(rt, u64::from(process));
    put(rt, b" has it (");
    put(rt, lock);
    put(rt, b")\n");
    false
}

pub fn unreadable(rt: HostRuntime, what: &[u8], lock: &[u8]) -> bool {
    put(rt, b"poll: ");
    put(rt, what);
    put(rt, b": locked by ");
    put(rt, lock);
    put(
        rt,
        b", which names no process: remove it if nothing uses the line or the file\n",
    );
    false
}

pub fn no_line(rt: HostRuntime, device: &[u8]) -> bool {
    put(rt, b"poll: ");
    put(rt, device);
    put(rt, b": no terminal line; nothing was written to it\n");
    false
}

// Said before the first read: where the port was never set that may wait for ever.
pub fn asking(rt: HostRuntime, device: &[u8], address: u8) {
    put(rt, b"poll: asking meter ");
    decimal(rt, u64::from(address));
    asking_on(rt, device);
}

pub fn asking_mercury(rt: HostRuntime, device: &[u8], address: u32) {
    put(rt, b"poll: asking Mercury 206 ");
    decimal(rt, u64::from(address));
    asking_on(rt, device);
}

fn asking_on(rt: HostRuntime, device: &[u8]) {
    put(rt, b" on ");
    put(rt, device);
    put(rt, b"; if nothing follows, set the port: ");
    setting(rt, device);
}

fn setting(rt: HostRuntime, device: &[u8]) {
    put(rt, b"stty -F ");
    put(rt, device);
    put(rt, b" 9600 raw -echo clocal min 0 time 1\n");
}

pub fn reads_do_not_wait(rt: HostRuntime, device: &[u8]) {
    put(rt, b"poll: ");
    put(rt, device);
    put(rt, b": reads do not wait for an answer; set the port: ");
    setting(rt, device);
}

pub fn silent(rt: HostRuntime, device: &[u8], address: u8) {
    put(rt, b"poll: ");
    put(rt, device);
    put(rt, b": no answer of meter ");
    decimal(rt, u64::from(address));
    put(
        rt,
        b": is it on, is that its address, is the port set to its speed?\n",
    );
}

pub fn silent_mercury(rt: HostRuntime, device: &[u8], address: u32) -> bool {
    put(rt, b"poll: ");
    put(rt, device);
    put(rt, b": no answer of Mercury 206 ");
    decimal(rt, u64::from(address));
    put(
        rt,
        b": is it on, is that its number, is the port set to its speed?\n",
    );
    false
}

pub fn never_silent(rt: HostRuntime, device: &[u8]) {
    put(rt, b"poll: ");
    put(rt, device);
    put(rt, b": never falls silent\n");
}

// The meter is another one than the log's, or did not tell.
pub fn does_not_fit(rt: HostRuntime, device: &[u8], address: u8, h: Header, l: Learned) {
    match l {
        Learned::Ke(ke) => {
            put(rt, b"poll: the meter's Ke is ");
            decimal(rt, u64::from(ke));
            put(rt, b", the log's ");
            decimal(rt, u64::from(h.ke));
            put(rt, b": nothing was asked for\n");
        }
        Learned::Minutes(minutes) => {
            put(rt, b"poll: the meter's intervals have ");
            decimal(rt, u64::from(minutes));
            put(rt, b" minutes, the log's ");
            decimal(rt, u64::from(h.minutes));
            put(rt, b": nothing was asked for\n");
        }
        _ => unlearned(rt, device, address, l),
    }
}

pub fn unlearned(rt: HostRuntime, device: &[u8], address: u8, l: Learned) {
    put(rt, b"poll: ");
    put(rt, device);
    match l {
        Learned::Refused(result) => {
            put(rt, b": meter ");
            decimal(rt, u64::from(address));
            put(rt, b" refuses to tell its clock or its Ke, with result ");
            decimal(rt, u64::from(result));
            put(rt, b"\n");
        }
        Learned::Malformed(fault) => unlike(rt, fault),
        _ => put(rt, b"\n"),
    }
}

// What is wrong with a reply, and where to look.
fn unlike(rt: HostRuntime, fault: Fault) {
    put(rt, b": ");
    in_words(rt, fault.number());
    match fault {
        Fault::Length(n) => {
            put(rt, b", ");
            decimal(rt, n as u64);
            put(rt, b" bytes: see to cable and speed\n");
        }
        Fault::Crc => put(rt, b": see to cable and speed\n"),
        Fault::Address => put(rt, b": see to the address\n"),
        Fault::Function | Fault::Parameter => put(
            rt,
            b": is it an SS-301, and does nobody else ask on the line?\n",
        ),
    }
}

pub fn clock(rt: HostRuntime, t: DateTime) {
    put(rt, b"poll: the meter's clock shows ");
    time(rt, t.date, t.hour, t.minute);
    put(rt, b"; intervals that end later are not over yet\n");
}

pub fn no_time(rt: HostRuntime, t: DateTime) {
    put(rt, b"poll: the meter's clock shows no time: ");
    time(rt, t.date, t.hour, t.minute);
    put(rt, b"\n");
}

pub fn far_apart(rt: HostRuntime, t: DateTime, machine: u32, anyway: bool) {
    put(rt, b"poll: the meter's clock shows ");
    time(rt, t.date, t.hour, t.minute);
    put(rt, b", this machine's ");
    machine_time(rt, machine);
    put(rt, b" UTC: more than a day apart");
    if anyway {
        put(rt, b"\n");
        return;
    }
    put(
        rt,
        b"; nothing was asked for (the word `anyway` polls all the same)\n",
    );
}

fn machine_time(rt: HostRuntime, minute: u32) {
    let start = Date {
        year: 0,
        month: 1,
        day: 1,
    };
    let rest = minute % DAY_MINUTES;
    if let Ok(days) = u16::try_from(minute / DAY_MINUTES)
        && let Ok(date) = calendar::days_later(start, days)
    {
        time(
            rt,
            date,
            (rest / HOUR_MINUTES) as u8,
            (rest % HOUR_MINUTES) as u8,
        );
    }
}

fn time(rt: HostRuntime, date: Date, hour: u8, minute: u8) {
    let mut text = [0u8; DATE_BYTES + TIME_BYTES];
    text::put_date(&mut text, 0, date);
    byte_numbers::put_byte(&mut text, DATE_BYTES, b' ');
    text::put_two(&mut text, DATE_BYTES + 1, hour);
    byte_numbers::put_byte(&mut text, DATE_BYTES + 3, b':');
    text::put_two(&mut text, DATE_BYTES + 4, minute);
    put(rt, &text);
}

// The order in which it goes by a day's intervals and the days.
pub fn order(rt: HostRuntime, order: Order) {
    match order {
        Order::OldestFirst => put(rt, b"poll: the oldest interval is asked for first\n"),
        Order::NewestFirst => put(rt, b"poll: the newest interval is asked for first\n"),
    }
}

// A terminal shows each slot on one line, which is written over.
pub fn slot(rt: HostRuntime, terminal: bool, day: u8, number: u8, tally: Tally, passed: Passed) {
    if terminal {
        put(rt, b"\rpoll: day ");
        decimal(rt, u64::from(day));
        put(rt, b" slot ");
        decimal(rt, u64::from(number));
        put(rt, b": ");
        counts(rt, tally, passed);
        put(rt, b"  ");
    }
}

// What became of a day's intervals.
pub fn day(rt: HostRuntime, terminal: bool, number: u8, tally: Tally, passed: Passed) {
    if terminal {
        put(rt, b"\r");
    }
    put(rt, b"poll: day ");
    decimal(rt, u64::from(number));
    put(rt, b": ");
    counts(rt, tally, passed);
    put(rt, b"\n");
}

// Leaves the line that is written over.
pub fn new_line(rt: HostRuntime, terminal: bool) {
    if terminal {
        put(rt, b"\n");
    }
}

pub fn sum(rt: HostRuntime, tally: Tally, passed: Passed) {
    put(rt, b"poll: in all: ");
    counts(rt, tally, passed);
    put(rt, b"\n");
}

// The last line, since the program has no exit status.
pub fn end(rt: HostRuntime, well: bool) {
    if well {
        put(rt, b"poll: done\n");
    } else {
        put(rt, b"poll: failed\n");
    }
}

fn counts(rt: HostRuntime, tally: Tally, passed: Passed) {
    count(rt, tally.taken, b" taken, ");
    count(rt, tally.silent, b" without answer, ");
    count(rt, tally.refused, b" refused; ");
    thrown_away(rt, tally.faults);
    count(rt, passed.not_over, b" not over yet, ");
    count(rt, passed.too_old, b" too old to ask for");
}

// The replies that were not well formed, by what an installer looks at then.
fn thrown_away(rt: HostRuntime, faults: Faults) {
    put(rt, b"cable: ");
    count(rt, faults.length, b" length, ");
    count(rt, faults.crc, b" CRC; setting: ");
    count(rt, faults.address, b" address, ");
    count(rt, faults.function, b" function, ");
    count(rt, faults.parameter, b" parameter; ");
}

fn count(rt: HostRuntime, n: u32, what: &[u8]) {
    decimal(rt, u64::from(n));
    put(rt, what);
}

// What cannot be written is left out.
fn put(rt: HostRuntime, bytes: &[u8]) {
    let _ = rt.stderr().write_all(bytes);
}

fn decimal(rt: HostRuntime, n: u64) {
    let _ = rt.stderr().print(n);
}
