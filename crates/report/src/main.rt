// Reads the file of a log on standard input, once, and prints its page: the heading and a line for each day, or, for a file that is
// refused, one line with the refusal's number. Each line is one function of the file's bytes. A person who looks gets a strip a day on
// standard error too.
#![tactic(auto)]

ghost use Rattle.std.specs.Prelude.{◌≡◌, take};
ghost use Rattle.day_rows.specs.LogAndRows.{log_and_rows};
ghost use Rattle.report_page.specs.Page.{ReadOf, page_line, strip_line};
ghost use Rattle.report.specs.Printed.{Printed};

use day_report::{LINE_MOST, STRIP_MOST};
use day_rows::FIGURES_MOST;
use log_file::ReadError;
use log_header::IMAGE_MOST;
use report_page::Page;
use std::io;
use std::io::IsTerminal;

// One byte more than the longest file has, so that a longer one shows.
const FILE_ROOM: usize = log_file::FILE_MOST + 1;

// The program's own name.
const ITS_WORDS: usize = 1;

fn main(rt: HostRuntime) -> io::Result<()> {
    if ITS_WORDS < file_io::word_count(rt) {
        say(
            rt,
            b"report < LOGFILE: prints the day report of the log's file on its standard input\n",
        );
        return Ok(());
    }
    begin(rt)
}

fn begin(rt: HostRuntime) -> io::Result<()> {
    let mut file = [0u8; FILE_ROOM];
    let n = file_io::read_full(&mut rt.stdin(), &mut file)?;
    read(rt, front(&file, n));
    Ok(())
}

fn read(rt: HostRuntime, file: &[u8]) {
    let mut room = [0u8; IMAGE_MOST];
    let mut figures = [0u32; FIGURES_MOST];
    let answer = log_file::read_file(file, &mut room, &mut figures);
    shown(rt, file, answer, &room, &figures);
}

// What was read of the file.
fn shown(
    rt: HostRuntime,
    file: &[u8],
    answer: Result<usize, ReadError>,
    room: &[u8],
    figures: &[u32],
)
    requires { ReadOf file.now answer (log_and_rows room.now figures.now) }
{
    lines(rt, file, answer, room, figures);
    // Nobody looks at a pipe's or a file's end.
    if rt.stderr().is_terminal() {
        strips(rt, file, answer, room, figures);
    }
}

fn lines(
    rt: HostRuntime,
    file: &[u8],
    answer: Result<usize, ReadError>,
    room: &[u8],
    figures: &[u32],
)
    requires { ReadOf file.now answer (log_and_rows room.now figures.now) }
{
    let mut page = report_page::page_of(answer);
    for _ in 0..report_page::LINES_MOST {
        page = line(rt, file, page, room, figures);
    }
}

// Prints the page's next line; one that the page does not have is nothing.
fn line(rt: HostRuntime, file: &[u8], page: Page, room: &[u8], figures: &[u32]) -> Page
    requires { ReadOf file.now page.read (log_and_rows room.now figures.now) }
    ensures { result.read ≡ page.read }
{
    let mut text = [0u8; LINE_MOST];
    let next = report_page::put_next_line(page, room, figures, &mut text);
    if let Ok(n) = next.answer {
        say(rt, line_of(file, page.next, &text, n));
    }
    next.after
}

fn strips(
    rt: HostRuntime,
    file: &[u8],
    answer: Result<usize, ReadError>,
    room: &[u8],
    figures: &[u32],
)
    requires { ReadOf file.now answer (log_and_rows room.now figures.now) }
{
    let mut page = report_page::page_of(answer);
    for _ in 0..report_page::DAYS_MOST {
        page = strip(rt, file, page, room, figures);
    }
}

// Prints the next day's strip; a day that the log does not have is nothing.
fn strip(rt: HostRuntime, file: &[u8], page: Page, room: &[u8], figures: &[u32]) -> Page
    requires { ReadOf file.now page.read (log_and_rows room.now figures.now) }
    ensures { result.read ≡ page.read }
{
    let mut text = [0u8; STRIP_MOST];
    let next = report_page::put_next_strip(page, room, &mut text);
    if let Ok(n) = next.answer {
        let _ = rt.stderr().write_all(strip_of(file, page.next, &text, n));
    }
    next.after
}

// What is handed over to be printed is that line of the file's page, and nothing else.
fn line_of<'a>(file: &[u8], i: u8, text: &'a [u8], n: usize) -> &'a [u8]
    requires { Printed (page_line file.now i) text.now n }
    ensures { result.now ≡ take n text.now }
{
    front(text, n)
}

// And here that strip.
fn strip_of<'a>(file: &[u8], day: u8, text: &'a [u8], n: usize) -> &'a [u8]
    requires { Printed (strip_line file.now day) text.now n }
    ensures { result.now ≡ take n text.now }
{
    front(text, n)
}

// The first n bytes; all of them where there are no more.
fn front(bytes: &[u8], n: usize) -> &[u8]
    ensures { result.now ≡ take n bytes.now }
{
    &bytes[..n.min(bytes.len())]
}

// What cannot be written is left out.
fn say(rt: HostRuntime, bytes: &[u8]) {
    let _ = rt.stdout().write_all(bytes);
}
