// The program's arguments.
use calendar::Date;
use file_io::PATH_ROOM;
use log_header::Header;
use polling::{Order, Wanted};

// The days that are polled.
#[derive(Clone, Copy)]
pub enum Chosen {
    All,
    // Counted from 0.
    One(u8),
    // A word that names no day of any log, and is none of the others either.
    Unread,
}

// What is said behind the log's file.
#[derive(Clone, Copy)]
pub struct Options {
    pub chosen: Chosen,
    pub wanted: Wanted,
    pub order: Order,
    // A clock that is more than a day off is no reason to stop.
    pub anyway: bool,
}

// Where the words of `poll DEVICE ADDRESS LOGFILE ..` and of `poll new LOGFILE YEAR MONTH DAY DAYS MINUTES KE SEASONS` stand.
pub const DEVICE: usize = 1;

pub const ADDRESS: usize = 2;

pub const POLLED_LOG: usize = 3;

// The words behind the log's file, in any order.
const FIRST_OPTION: usize = 4;

const LAST_OPTION: usize = 7;

// The first word, among `new mercury`.
const NEW: usize = 0;

const MERCURY: usize = 1;

// Where the words of `poll mercury DEVICE ADDRESS` stand.
pub const MERCURY_DEVICE: usize = 2;

pub const MERCURY_ADDRESS: usize = 3;

const AGAIN: usize = 0;

const ANYWAY: usize = 1;

const NEWEST: usize = 2;

pub const NEW_LOG: usize = 2;

const YEAR: usize = 3;

const MONTH: usize = 4;

const DAY: usize = 5;

const DAYS: usize = 6;

const MINUTES: usize = 7;

const KE: usize = 8;

const SEASONS: usize = 9;

// A date counts its years from here, in one byte; which dates there are, the log says.
const FIRST_YEAR: u16 = 2000;

// Whether the first word is `new`.
pub fn is_new(rt: HostRuntime) -> bool {
    first_place(rt) == NEW
}

// Whether it is `mercury`.
pub fn is_mercury(rt: HostRuntime) -> bool {
    first_place(rt) == MERCURY
}

fn first_place(rt: HostRuntime) -> usize {
    let mut room = [0u8; PATH_ROOM];
    console::place_of(file_io::word(rt, DEVICE, &mut room), b"new mercury")
}

pub fn said_options(rt: HostRuntime) -> Options {
    let mut options = Options {
        chosen: Chosen::All,
        wanted: Wanted::Gaps,
        order: Order::OldestFirst,
        anyway: false,
    };
    for i in FIRST_OPTION..=LAST_OPTION {
        options = with_word(rt, options, i);
    }
    options
}

fn with_word(rt: HostRuntime, o: Options, i: usize) -> Options {
    if file_io::word_count(rt) <= i {
        return o;
    }
    let mut room = [0u8; PATH_ROOM];
    let word = file_io::word(rt, i, &mut room);
    match console::place_of(word, b"again anyway newest") {
        AGAIN => Options {
            wanted: Wanted::GapsAndEmpties,
            ..o
        },
        ANYWAY => Options { anyway: true, ..o },
        NEWEST => Options {
            order: Order::NewestFirst,
            ..o
        },
        _ => Options {
            chosen: byte_argument(rt, i).map_or(Chosen::Unread, Chosen::One),
            ..o
        },
    }
}

// YEAR MONTH DAY DAYS MINUTES KE SEASONS: a word that is no number is no header's either.
pub fn start_words(rt: HostRuntime) -> Option<Header> {
    let year = short_argument(rt, YEAR)?.checked_sub(FIRST_YEAR)?;
    Some(Header {
        start: Date {
            year: u8::try_from(year).ok()?,
            month: byte_argument(rt, MONTH)?,
            day: byte_argument(rt, DAY)?,
        },
        days: byte_argument(rt, DAYS)?,
        minutes: byte_argument(rt, MINUTES)?,
        ke: short_argument(rt, KE)?,
        seasons: byte_argument(rt, SEASONS)?,
    })
}

pub fn byte_argument(rt: HostRuntime, i: usize) -> Option<u8> {
    u8::try_from(number_argument(rt, i)?).ok()
}

fn short_argument(rt: HostRuntime, i: usize) -> Option<u16> {
    u16::try_from(number_argument(rt, i)?).ok()
}

pub fn long_argument(rt: HostRuntime, i: usize) -> Option<u32> {
    u32::try_from(number_argument(rt, i)?).ok()
}

// A word that is missing or too long reads as an empty one, which is no number.
fn number_argument(rt: HostRuntime, i: usize) -> Option<u64> {
    let mut room = [0u8; PATH_ROOM];
    text::number_of(file_io::word(rt, i, &mut room))
}
