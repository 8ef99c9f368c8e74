// The line of a refusal.
ghost use Rattle.std.specs.Prelude.{◌≡◌};
ghost use Rattle.refusal.specs.Outcome.{outcome};
ghost use Rattle.day_report.specs.Text.{put_text};
ghost use Rattle.report_page.specs.Page.{refused_text};

use day_report::ReportError;

// The bytes of `refused `.
const WORD_BYTES: usize = 8;

const LINE_FEED: u8 = 10;

pub fn put_refused(number: u8, out: &mut [u8]) -> Result<usize, ReportError>
    ensures { outcome result out.new ≡ put_text (refused_text number) out.old }
{
    let end = WORD_BYTES + text::decimal_length(number as u64);
    if out.len() <= end {
        return Err(ReportError::TooShort);
    }
    byte_numbers::put_bytes(out, 0, b"refused ");
    text::put_decimal(out, WORD_BYTES, number as u64);
    byte_numbers::put_byte(out, end, LINE_FEED);
    Ok(end + 1)
}
