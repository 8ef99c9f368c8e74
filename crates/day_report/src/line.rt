// The heading, and the line of a date and the report's numbers.
ghost use Rattle.std.specs.Prelude.{◌≡◌, ◌+◌, ◌≤◌, ◌<◌, length};
ghost use Rattle.refusal.specs.Outcome.{outcome};
ghost use Rattle.byte_numbers.specs.Place.{written};
ghost use Rattle.day_report.specs.Text.{put_text, heading_text, numbers_text, line_text, date_size, line_most};

use crate::answer::ReportError;
use calendar::Date;
use day_rows::REPORT_NUMBERS;

pub const DATE_BYTES: usize = 10;

// A number of 32 bits behind a space.
const NUMBER_MOST: usize = 11;

// The longest line: a date, the report's numbers, and a line feed.
pub const LINE_MOST: usize = DATE_BYTES + NUMBER_MOST * REPORT_NUMBERS + 1;

pub const SPACE: u8 = 32;

pub const LINE_FEED: u8 = 10;

pub fn put_heading(out: &mut [u8]) -> Result<usize, ReportError>
    ensures { outcome result out.new ≡ put_text heading_text out.old }
{
    put_text(b"date gap empty measured E+ E- R+ R- doubled\n", out)
}

pub fn put_line(
    date: Date,
    row: [u32; REPORT_NUMBERS],
    out: &mut [u8],
) -> Result<usize, ReportError>
    ensures { outcome result out.new ≡ put_text (line_text date row) out.old }
{
    // How long a line is shows only once it stands, and a buffer that is too short for it is not touched.
    let mut line = [0u8; LINE_MOST];
    let n = write_line(&mut line, date, row);
    put_text(&line[..n], out)
}

#[tactic(auto, unfolding(crate::specs::Text::put_text))]
pub fn put_text(text: &[u8], out: &mut [u8]) -> Result<usize, ReportError>
    ensures { outcome result out.new ≡ put_text text.now out.old }
{
    if out.len() < text.len() {
        return Err(ReportError::TooShort);
    }
    byte_numbers::put_bytes(out, 0, text);
    Ok(text.len())
}

// Answers the line's length, stored or not.
fn write_line(line: &mut [u8], date: Date, row: [u32; REPORT_NUMBERS]) -> usize
    ensures { (line.new ≡ written line.old 0 (line_text date row)) × (result ≡ length (line_text date row)) × (result ≤ line_most) }
{
    text::put_date(line, 0, date);
    let end = write_numbers(line, row);
    byte_numbers::put_byte(line, end, LINE_FEED);
    end + 1
}

// Each number behind a space, from the date's end on. Answers where they end.
fn write_numbers(line: &mut [u8], row: [u32; REPORT_NUMBERS]) -> usize
    ensures { (line.new
        ≡ written line.old date_size (numbers_text row)) × (result ≡ date_size + length (numbers_text row)) × (result < line_most) }
{
    let mut at = DATE_BYTES;
    for n in row {
        byte_numbers::put_byte(line, at, SPACE);
        let digits = text::put_decimal(line, at + 1, n as u64);
        at += 1 + digits;
    }
    at
}
