// The lines of the page of what was read of a file. A line that the page does not have answers 22.
ghost use Rattle.std.specs.Prelude.{◌≡◌, take, ◌<◌};
ghost use Rattle.refusal.specs.Outcome.{outcome};
ghost use Rattle.day_rows.specs.LogAndRows.{log_and_rows};
ghost use Rattle.day_report.specs.Text.{text_number};
ghost use Rattle.report_page.specs.Page.{lines_most, refused_line, report_line, read_line, read_strip, page_at, line_with, next_line, next_strip};

use day_report::ReportError;
use log_file::ReadError;
use refusal::Numbered;

// The most days that a log has.
pub const DAYS_MOST: u8 = 62;

// The heading, and those days' lines.
pub const LINES_MOST: u8 = DAYS_MOST + 1;

// How far a page is: what was read of the file, and which line comes next, or which day's strip.
#[derive(Clone, Copy)]
pub struct Page {
    pub read: Result<usize, ReadError>,
    pub next: u8,
}

// What became of a line, and the page behind it.
#[derive(Clone, Copy)]
pub struct Line {
    pub answer: Result<usize, ReportError>,
    pub after: Page,
}

// The page of what was read, before its first line.
pub fn page_of(read: Result<usize, ReadError>) -> Page
    ensures { result ≡ page_at read 0 }
{
    Page { read, next: 0 }
}

// The next line of what is printed for a file, which was read into room and figures, to the front of out, whose rest stays as it was; a
// refusal leaves all of it so.
pub fn put_next_line(page: Page, room: &[u8], figures: &[u32], out: &mut [u8]) -> Line
    ensures { outcome result out.new ≡ next_line page (log_and_rows room.now figures.now) out.old }
{
    let answer = put_read_line(page.read, room, figures, page.next, out);
    behind(page, answer)
}

// The strip of the next day of a file's log, likewise; 28 for a file that was refused.
pub fn put_next_strip(page: Page, room: &[u8], out: &mut [u8]) -> Line
    ensures { outcome result out.new ≡ next_strip page room.now out.old }
{
    let answer = put_read_strip(page.read, room, page.next, out);
    behind(page, answer)
}

// The image that was read stands at the front of the room that it was given, and its figures at the front of theirs.
#[tactic(auto, using(crate::proofs::PageLaws::refused_number), unfolding(crate::specs::Page::read_line, crate::specs::Page::image_in))]
fn put_read_line(
    read: Result<usize, ReadError>,
    room: &[u8],
    figures: &[u32],
    i: u8,
    out: &mut [u8],
) -> Result<usize, ReportError>
    ensures { outcome result out.new ≡ read_line read (log_and_rows room.now figures.now) i out.old }
{
    match read {
        Ok(length) => put_report_line(front(room, length), figures, i, out),
        Err(refusal) => put_refused_line(refusal.number(), i, out),
    }
}

// The strip of a day of the image that was read.
#[tactic(auto, using(crate::proofs::PageLaws::read_or_none), unfolding(crate::specs::Page::read_strip, crate::specs::Page::image_in))]
fn put_read_strip(
    read: Result<usize, ReadError>,
    room: &[u8],
    day: u8,
    out: &mut [u8],
) -> Result<usize, ReportError>
    ensures { outcome result out.new ≡ read_strip read room.now day out.old }
{
    day_report::put_strip(front(room, read.unwrap_or(0)), day, out)
}

// The heading, then the days.
#[tactic(auto, unfolding(crate::specs::Page::report_line))]
fn put_report_line(
    image: &[u8],
    figures: &[u32],
    i: u8,
    out: &mut [u8],
) -> Result<usize, ReportError>
    ensures { outcome result out.new ≡ report_line image.now figures.now i out.old }
{
    if i == 0 {
        return day_report::put_heading(out);
    }
    day_report::put_day(image, figures, i - 1, out)
}

#[tactic(auto, unfolding(crate::specs::Page::refused_line))]
fn put_refused_line(number: u8, i: u8, out: &mut [u8]) -> Result<usize, ReportError>
    ensures { outcome result out.new ≡ refused_line number i out.old }
{
    if i == 0 {
        return crate::refused::put_refused(number, out);
    }
    Err(ReportError::NotInLog)
}

// The page behind a line: where it was put, the next one is next.
#[tactic(auto, using(crate::proofs::PageLaws::unput_number), unfolding(crate::specs::Page::page_after))]
fn behind(page: Page, answer: Result<usize, ReportError>) -> Line
    requires { text_number answer ≡ 0 → page.next < lines_most }
    ensures { result ≡ line_with page answer }
{
    let after = match answer {
        Ok(_) => Page {
            next: page.next + 1,
            ..page
        },
        Err(_) => page,
    };
    Line { answer, after }
}

// The first n bytes; all of them where there are no more.
fn front(bytes: &[u8], n: usize) -> &[u8]
    ensures { result.now ≡ take n bytes.now }
{
    &bytes[..n.min(bytes.len())]
}
