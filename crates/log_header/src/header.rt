// The header of a log, and whether lent bytes are a log's image.
ghost use Rattle.std.specs.Prelude.{◌≡◌, ◌&&◌, ◌+◌, ltb, eqb, length};
ghost use Rattle.byte_numbers.specs.Place.{written};
ghost use Rattle.calendar.specs.Date.{is_date, day_number, century_days};
ghost use Rattle.log_header.specs.Header.{cells_of, length_of, is_header, header_bytes, header_at, date_bytes};
ghost use Rattle.log_header.specs.Header.{mark_right, version_at, version_right, fields_right, header_of, sound_of};

#[derive(Clone, Copy, PartialEq, Eq)]
pub struct Header {
    pub start: calendar::Date,
    pub days: u8,
    // The interval.
    pub minutes: u8,
    // Milliwatt-hours for a count.
    pub ke: u16,
    // 1 where the automatic seasons are followed, else 0.
    pub seasons: u8,
}

pub const HEADER_BYTES: usize = 14;

const DAYS_MOST: u8 = 62;

// The most cells that a log has.
pub const CELLS_MOST: usize = DAYS_MOST as usize * slots::SLOTS_MOST as usize;

// The longest image.
pub const IMAGE_MOST: usize = HEADER_BYTES + CELLS_MOST / 4 + 8 * CELLS_MOST + CELLS_MOST;

// The image's, and that of a file that is written.
pub const VERSION: u16 = 3;

const SEASONS_MOST: u8 = 1;

// 2099, the calendar's last.
const LAST_YEAR: u8 = 99;

pub fn cells_of(h: Header) -> usize
    ensures { result ≡ cells_of h }
{
    let slots = slots::slots_of(h.minutes);
    (h.days as usize) * (slots as usize)
}

// The bytes of a log's image.
pub fn length_of(h: Header) -> usize
    ensures { result ≡ length_of h }
{
    let n = cells_of(h);
    HEADER_BYTES + n / 4 + 8 * n + n
}

pub fn is_header(h: Header) -> bool
    ensures { result ≡ is_header h }
{
    h.days != 0
        && h.days <= DAYS_MOST
        && h.ke != 0
        && h.seasons <= SEASONS_MOST
        && slots::slots_of(h.minutes) != 0
        && has_day(h.start, h.days - 1)
}

// Whether a date is one, and so many days later the calendar has not ended.
fn has_day(start: calendar::Date, n: u8) -> bool
    ensures { result ≡ (is_date start && ltb (day_number start + n) century_days) }
{
    // In a year that is not the last, so few days later the calendar never ends.
    if start.year < LAST_YEAR {
        return calendar::is_date(start);
    }
    calendar::days_later(start, n as u16).is_ok()
}

pub fn mark_right(log: &[u8]) -> bool
    ensures { result ≡ mark_right log.now }
{
    byte_numbers::byte_at(log, 0) == b'G'
        && byte_numbers::byte_at(log, 1) == b'E'
        && byte_numbers::byte_at(log, 2) == b'L'
}

pub fn version_at(log: &[u8]) -> u16
    ensures { result ≡ version_at log.now }
{
    byte_numbers::u16_at(log, 3)
}

fn version_right(log: &[u8]) -> bool
    ensures { result ≡ version_right log.now }
{
    version_at(log) == VERSION
}

// The header that the fields say, right or not.
fn header_at(log: &[u8]) -> Header
    ensures { result ≡ header_at log.now }
{
    let start = calendar::Date {
        year: byte_numbers::byte_at(log, 5),
        month: byte_numbers::byte_at(log, 6),
        day: byte_numbers::byte_at(log, 7),
    };
    Header {
        start,
        days: byte_numbers::byte_at(log, 8),
        minutes: byte_numbers::byte_at(log, 9),
        ke: byte_numbers::u16_at(log, 10),
        seasons: byte_numbers::byte_at(log, 12),
    }
}

// The header of at least fourteen bytes whose mark and version are right.
pub fn header_of(log: &[u8]) -> Option<Header>
    ensures { result ≡ header_of log.now }
{
    let h = header_at(log);
    if byte_numbers::byte_at(log, 13) == 0 && is_header(h) {
        Some(h)
    } else {
        None
    }
}

pub fn sound(log: &[u8]) -> Option<Header>
    ensures { result ≡ sound_of log.now }
{
    // No log is shorter than its header, and the compiler need not look at the length again for each field.
    if log.len() < HEADER_BYTES {
        return None;
    }
    if is_sound(log) {
        Some(header_at(log))
    } else {
        None
    }
}

// Whether bytes are a log: their mark, version and fields are right, and they are as many as the fields say. The answer is a bool and the
// caller reads the fields for itself, since a header handed back would go through memory, piece by piece.
fn is_sound(log: &[u8]) -> bool
    ensures { result ≡ ((mark_right log.now && version_right log.now)
        && (fields_right log.now && eqb (length log.now) (length_of (header_at log.now)))) }
{
    let h = header_at(log);
    mark_right(log)
        && version_right(log)
        && byte_numbers::byte_at(log, 13) == 0
        && is_header(h)
        && log.len() == length_of(h)
}

pub fn write_header(out: &mut [u8], h: Header)
    ensures { out.new ≡ written out.old 0 (header_bytes h) }
{
    byte_numbers::put_bytes(out, 0, b"GEL");
    byte_numbers::put_u16(out, 3, VERSION);
    write_date(out, h.start);
    byte_numbers::put_byte(out, 8, h.days);
    byte_numbers::put_byte(out, 9, h.minutes);
    byte_numbers::put_u16(out, 10, h.ke);
    byte_numbers::put_byte(out, 12, h.seasons);
    byte_numbers::put_byte(out, 13, 0);
}

fn write_date(out: &mut [u8], d: calendar::Date)
    ensures { out.new ≡ written out.old 5 (date_bytes d) }
{
    byte_numbers::put_byte(out, 5, d.year);
    byte_numbers::put_byte(out, 6, d.month);
    byte_numbers::put_byte(out, 7, d.day);
}
