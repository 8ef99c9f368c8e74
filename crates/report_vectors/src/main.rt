// What is printed for files of a log of 1 day, 30 minutes, Ke 100, a slot measured 12 0 3 0, the next one empty, all others gaps, and its strip.
// First document 01's example, from 2024-05-17 with slots 0 and 1; the same with version 4, `refused 31`; and with a wrong CRC. Then document
// 02's, CR 5, where the seasons are followed: the March day, which has no slots 4 and 5; the October day, which has them twice; a March day with
// cells in them, `refused 35`; and that one where the seasons are not followed. Last CR 7's, whose rows end with their lapses, of which the report
// says nothing: the first example; the March day with lapses in slot 6; and with lapses in slot 4, `refused 35`. stdout was written by hand from the
// two documents, and not by this code.
#![tactic(auto)]

ghost use Rattle.std.specs.Prelude.{◌≡◌, take};

use day_report::{LINE_MOST, ReportError, STRIP_MOST};
use day_rows::FIGURES_MOST;
use log_header::IMAGE_MOST;
use report_page::Page;

// Where the file's version stands, the rows of the day's first slot and of that at 02:00, and the CRC. Rows have nine bytes before version 3.
const VERSION: usize = 3;

const EARLY_ROW: usize = 9;

const SLOT_0: usize = log_header::HEADER_BYTES;

const SLOT_4: usize = SLOT_0 + 4 * EARLY_ROW;

const CRC: usize = SLOT_0 + 48 * EARLY_ROW;

const FILE: usize = CRC + frame::layout::CRC_BYTES;

// The same in version 3, and where the lapses of slots 4 and 6 stand.
const ROW: usize = 10;

const LAPSES_4: usize = SLOT_0 + 4 * ROW + 9;

const LAPSES_6: usize = SLOT_0 + 6 * ROW + 9;

const LAST_CRC: usize = SLOT_0 + 48 * ROW;

const LAST_FILE: usize = LAST_CRC + frame::layout::CRC_BYTES;

fn main(rt: HostRuntime) {
    first_version(rt);
    second_version(rt);
    third_version(rt);
}

fn first_version(rt: HostRuntime) {
    show(rt, may());
    show(rt, with(may(), VERSION, b"\x04"));
    show(rt, with(may(), CRC, b"\x00\x00"));
}

fn may() -> [u8; FILE] {
    file(b"GEL\x01\x00\x18\x05\x11\x01\x1E\x64\x00\x00\x00", SLOT_0)
}

fn second_version(rt: HostRuntime) {
    show(
        rt,
        file(b"GEL\x02\x00\x18\x03\x1F\x01\x1E\x64\x00\x01\x00", SLOT_0),
    );
    show(
        rt,
        file(b"GEL\x02\x00\x18\x0A\x1B\x01\x1E\x64\x00\x01\x00", SLOT_4),
    );
    show(
        rt,
        file(b"GEL\x02\x00\x18\x03\x1F\x01\x1E\x64\x00\x01\x00", SLOT_4),
    );
    show(
        rt,
        file(b"GEL\x02\x00\x18\x03\x1F\x01\x1E\x64\x00\x00\x00", SLOT_4),
    );
}

fn third_version(rt: HostRuntime) {
    show_last(
        rt,
        b"GEL\x03\x00\x18\x05\x11\x01\x1E\x64\x00\x00\x00",
        LAPSES_4,
    );
    show_last(
        rt,
        b"GEL\x03\x00\x18\x03\x1F\x01\x1E\x64\x00\x01\x00",
        LAPSES_6,
    );
    show_last(
        rt,
        b"GEL\x03\x00\x18\x03\x1F\x01\x1E\x64\x00\x01\x00",
        LAPSES_4,
    );
}

// The file of version 3 with this header, measured in the first row, with 7 lapses, empty in the next, and 255 lapses at a place.
fn show_last(rt: HostRuntime, header: &[u8], lapses: usize) {
    let mut file = [0u8; LAST_FILE];
    byte_numbers::put_bytes(&mut file, 0, header);
    byte_numbers::put_bytes(
        &mut file,
        SLOT_0,
        b"\x02\x0C\x00\x00\x00\x03\x00\x00\x00\x07\x01",
    );
    byte_numbers::put_bytes(&mut file, lapses, b"\xFF");
    frame::seal(&mut file, LAST_CRC);
    shown(rt, &file);
}

// The file with this header, measured in the row at a place and empty in the next.
fn file(header: &[u8], row: usize) -> [u8; FILE] {
    let mut file = [0u8; FILE];
    byte_numbers::put_bytes(&mut file, 0, header);
    byte_numbers::put_bytes(&mut file, row, b"\x02\x0C\x00\x00\x00\x03\x00\x00\x00\x01");
    frame::seal(&mut file, CRC);
    file
}

// The file with other bytes at a place.
fn with(mut file: [u8; FILE], at: usize, bytes: &[u8]) -> [u8; FILE] {
    byte_numbers::put_bytes(&mut file, at, bytes);
    file
}

fn show(rt: HostRuntime, file: [u8; FILE]) {
    shown(rt, &file);
}

// The file is read once: its page and, where it was not refused, the strip of its one day.
fn shown(rt: HostRuntime, file: &[u8]) {
    let mut room = [0u8; IMAGE_MOST];
    let mut figures = [0u32; FIGURES_MOST];
    let read = log_file::read_file(file, &mut room, &mut figures);
    lines(rt, report_page::page_of(read), &room, &figures);
    strip(rt, report_page::page_of(read), &room);
}

fn lines(rt: HostRuntime, first: Page, room: &[u8], figures: &[u32]) {
    let mut page = first;
    for _ in 0..report_page::LINES_MOST {
        page = line(rt, page, room, figures);
    }
}

fn line(rt: HostRuntime, page: Page, room: &[u8], figures: &[u32]) -> Page {
    let mut text = [0u8; LINE_MOST];
    let next = report_page::put_next_line(page, room, figures, &mut text);
    put(rt, next.answer, &text);
    next.after
}

fn strip(rt: HostRuntime, first: Page, room: &[u8]) {
    let mut text = [0u8; STRIP_MOST];
    let next = report_page::put_next_strip(first, room, &mut text);
    put(rt, next.answer, &text);
}

// A line that there is.
fn put(rt: HostRuntime, answer: Result<usize, ReportError>, text: &[u8]) {
    if let Ok(n) = answer {
        say(rt, front(text, n));
    }
}

// The first n bytes; all of them where there are no more.
fn front(bytes: &[u8], n: usize) -> &[u8]
    ensures { result.now ≡ take n bytes.now }
{
    &bytes[..n.min(bytes.len())]
}

fn say(rt: HostRuntime, bytes: &[u8]) {
    let _ = rt.stdout().write_all(bytes);
}
