// Parameters 27, 28 and 32: a date and time of day.
ghost use Rattle.std.specs.Prelude.{◌≡◌};
ghost use Rattle.wire_values.specs.Clock.{date_time_of, date_time_bytes};
ghost use Rattle.byte_numbers.specs.Place.{written};

use calendar::{Date, DateTime};

// The bytes as they were sent: whether they are a time, the calendar says.
#[tactic(auto, unfolding(crate::specs::Clock::date_time_of))]
pub fn date_time_of(bytes: &[u8]) -> DateTime
    ensures { result ≡ date_time_of bytes.now }
{
    DateTime {
        date: Date {
            year: byte_numbers::byte_at(bytes, 5),
            month: byte_numbers::byte_at(bytes, 4),
            day: byte_numbers::byte_at(bytes, 3),
        },
        hour: byte_numbers::byte_at(bytes, 2),
        minute: byte_numbers::byte_at(bytes, 1),
        second: byte_numbers::byte_at(bytes, 0),
    }
}

#[tactic(auto, unfolding(crate::specs::Clock::date_time_bytes))]
pub fn put_date_time(out: &mut [u8], t: DateTime)
    ensures { out.new ≡ written out.old 0 (date_time_bytes t) }
{
    byte_numbers::put_bytes(
        out,
        0,
        &[
            t.second,
            t.minute,
            t.hour,
            t.date.day,
            t.date.month,
            t.date.year,
        ],
    );
}
