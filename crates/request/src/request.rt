// Read requests and their frames.
ghost use Rattle.std.specs.Prelude.{◌≡◌};
ghost use Rattle.refusal.specs.Outcome.{outcome};
ghost use Rattle.request.specs.Request.{requested, error_number};

use crate::subject::{MOST_SLOTS, is_askable, subject_of};
use frame::layout::{CRC_BYTES, READ_BYTES};
use parameters::code::Reading;
use refusal::Numbered;

#[derive(Clone, Copy, PartialEq, Eq)]
pub struct Request {
    // Its function.
    pub reading: Reading,
    pub address: u8,
    pub parameter: u8,
    pub offset: u8,
    pub tariff: u8,
    pub detail: u8,
}

#[derive(Clone, Copy, PartialEq, Eq)]
pub enum RequestError {
    TooShort,
    OutOfRange,
}

impl Numbered for RequestError {
    // Document 01's number.
    ghost number_of = { error_number };

    fn number(&self) -> u8 {
        match self {
            RequestError::TooShort => refusal::TOO_SHORT,
            RequestError::OutOfRange => refusal::OUT_OF_RANGE,
        }
    }
}

// The bytes before the CRC.
const BODY_BYTES: usize = READ_BYTES - CRC_BYTES;

// Puts a request's frame to the front of a lent output.
#[tactic(auto, unfolding(crate::specs::Request::requested))]
pub fn put_request(q: Request, out: &mut [u8]) -> Result<(), RequestError>
    ensures { outcome result out.new ≡ requested q out.old }
{
    if out.len() < READ_BYTES {
        return Err(RequestError::TooShort);
    }
    if !is_askable(subject_of(q, MOST_SLOTS)) {
        return Err(RequestError::OutOfRange);
    }
    let body = [
        q.address,
        u8::from(q.reading),
        q.parameter,
        q.offset,
        q.tariff,
        q.detail,
    ];
    byte_numbers::put_bytes(out, 0, &body);
    frame::seal(out, BODY_BYTES);
    Ok(())
}
