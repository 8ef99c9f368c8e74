// Dates as the day report has them: `2024-05-17`.
ghost use Rattle.std.specs.Prelude.{◌≡◌};
ghost use Rattle.byte_numbers.specs.Place.{written};
ghost use Rattle.text.specs.DateText.{date_text};

use crate::decimal::put_two;
use calendar::Date;

// A date counts its years from here.
const FIRST_YEAR: u16 = 2000;

const HYPHEN: u8 = 45;

pub fn put_date(out: &mut [u8], at: usize, d: Date)
    ensures { out.new ≡ written out.old at (date_text d) }
{
    if at < out.len() {
        let year = FIRST_YEAR + d.year as u16;
        put_two(out, at, (year / 100) as u8);
        put_two(out, at + 2, (year % 100) as u8);
        byte_numbers::put_byte(out, at + 4, HYPHEN);
        put_two(out, at + 5, d.month);
        byte_numbers::put_byte(out, at + 7, HYPHEN);
        put_two(out, at + 8, d.day);
    }
}
