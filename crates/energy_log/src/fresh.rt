// A fresh log, all gaps.
ghost use Rattle.std.specs.Prelude.{◌≡◌, ◌+◌, ◌-◌, ◌≤◌, length, replicate};
ghost use Rattle.refusal.specs.Outcome.{outcome};
ghost use Rattle.byte_numbers.specs.Place.{written};
ghost use Rattle.log_header.specs.Header.{header_size};
ghost use Rattle.energy_log.specs.Fresh.{fresh_error_number, fresh_of};

use log_header::{HEADER_BYTES, Header};
use refusal::Numbered;

#[derive(Clone, Copy, PartialEq, Eq)]
pub enum FreshError {
    // The header is none.
    OutOfRange,
    TooShort,
}

impl Numbered for FreshError {
    ghost number_of = { fresh_error_number };

    fn number(&self) -> u8 {
        match self {
            FreshError::OutOfRange => refusal::OUT_OF_RANGE,
            FreshError::TooShort => refusal::TOO_SHORT,
        }
    }
}

// To the front of out, whose rest stays as it was.
pub fn fresh_log(h: Header, out: &mut [u8]) -> Result<usize, FreshError>
    ensures { outcome result out.new ≡ fresh_of h out.old }
{
    if !log_header::is_header(h) {
        return Err(FreshError::OutOfRange);
    }
    let length = log_header::length_of(h);
    if out.len() < length {
        return Err(FreshError::TooShort);
    }
    log_header::write_header(out, h);
    write_gaps(out, length);
    Ok(length)
}

// The bytes behind the header, up to the image's end: gaps have no counts and no lapses, and their kind is zero too.
fn write_gaps(out: &mut [u8], end: usize)
    requires { (header_size ≤ end) × (end ≤ length out.old) }
    ensures { out.new ≡ written out.old header_size (replicate (end - header_size) 0) }
{
    out[HEADER_BYTES..end].fill(0);
}
