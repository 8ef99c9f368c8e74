// Replies decoded against their request.
ghost use Rattle.std.specs.Prelude.{◌≡◌};
ghost use Rattle.reader.specs.Reply.{phase_figures};
ghost use Rattle.reader.specs.Reply.{read_figures, read_as, decoded_of, error_of, error_number};

use crate::form::{Fault, ReplyError, reply_of};
use calendar::DateTime;
use frame::layout;
use parameters::code::{Parameter, Reading};
use refusal::Numbered;
use request::Request;
use wire_values::{DisplayMask, Energies, Powers, Row, Telemetry};

// What a reply says. No `==`: a float need not equal itself.
#[derive(Clone, Copy)]
pub enum Decoded {
    Address(u8),
    Telemetry(Telemetry),
    DateTime(DateTime),
    DisplayMask(DisplayMask),
    Powers(Powers),
    OnePower(f32),
    // The counts of one slice.
    Slice(Row),
    // `six_slices` has the rows.
    SixSlices,
    // A slice as the display shows it.
    Displayed(Energies),
}

#[derive(Clone, Copy, PartialEq, Eq)]
pub enum DecodeError {
    // A request that no record would answer with 0.
    OutOfRange,
    Malformed(Fault),
    // The meter's result.
    MeterRefused(u8),
    // An infinity or no number among the powers or the displayed energies.
    NotFinite,
}

impl From<ReplyError> for DecodeError {
    ghost from_gives = { λ e d. d ≡ error_of e };

    fn from(e: ReplyError) -> DecodeError {
        match e {
            ReplyError::Malformed(fault) => DecodeError::Malformed(fault),
            ReplyError::Refused(result) => DecodeError::MeterRefused(result),
        }
    }
}

impl Numbered for DecodeError {
    // Document 01's number, and document 02's of a reply that is not well formed.
    ghost number_of = { error_number };

    fn number(&self) -> u8 {
        match self {
            DecodeError::OutOfRange => refusal::OUT_OF_RANGE,
            DecodeError::Malformed(fault) => fault.number(),
            DecodeError::MeterRefused(_) => refusal::METER_REFUSED,
            DecodeError::NotFinite => refusal::NOT_FINITE,
        }
    }
}

#[tactic(auto, unfolding(crate::specs::Reply::decoded_of))]
pub fn decode(q: Request, reply: &[u8]) -> Result<Decoded, DecodeError>
    ensures { result ≡ decoded_of q reply.now }
{
    let subject = request::subject_of(q, request::MOST_SLOTS);
    let Some(asked) = subject else {
        return Err(DecodeError::OutOfRange);
    };
    let full = layout::BARE_BYTES + request::data_bytes(subject);
    let function = u8::from(q.reading);
    reply_of(q.address, function, q.parameter, full, reply)?;
    let data = byte_numbers::tail(reply, layout::DATA);
    read_as(asked.reading, asked.parameter, asked.detail, data)
}

// Figures as they are stored, or as the display shows them.
#[tactic(auto, unfolding(crate::specs::Reply::read_as))]
fn read_as(reading: Reading, p: Parameter, detail: u8, bytes: &[u8]) -> Result<Decoded, DecodeError>
    ensures { result ≡ read_as reading p detail bytes.now }
{
    match reading {
        Reading::Stored => read_figures(p, detail, bytes),
        Reading::Displayed => {
            let energies = wire_values::energies_of(bytes).ok_or(DecodeError::NotFinite)?;
            Ok(Decoded::Displayed(energies))
        }
    }
}

#[tactic(auto, unfolding(crate::specs::Reply::read_figures))]
fn read_figures(p: Parameter, detail: u8, bytes: &[u8]) -> Result<Decoded, DecodeError>
    ensures { result ≡ read_figures p detail bytes.now }
{
    match p {
        Parameter::ActivePower | Parameter::ReactivePower => phase_figures(detail, bytes),
        Parameter::Address => Ok(Decoded::Address(byte_numbers::byte_at(bytes, 0))),
        Parameter::Telemetry => Ok(Decoded::Telemetry(wire_values::telemetry_of(bytes))),
        Parameter::SummerDate | Parameter::WinterDate | Parameter::Clock => {
            Ok(Decoded::DateTime(wire_values::date_time_of(bytes)))
        }
        Parameter::DisplayMask => Ok(Decoded::DisplayMask(wire_values::display_mask(bytes))),
        Parameter::Slice => Ok(Decoded::Slice(wire_values::row_at(bytes, 0))),
        Parameter::SixSlices => Ok(Decoded::SixSlices),
        Parameter::Password | Parameter::Unknown => Err(DecodeError::OutOfRange),
    }
}

// The total and the three phases, or one of them.
#[tactic(auto, unfolding(crate::specs::Reply::phase_figures))]
fn phase_figures(detail: u8, bytes: &[u8]) -> Result<Decoded, DecodeError>
    ensures { result ≡ phase_figures detail bytes.now }
{
    if detail == 0 {
        let powers = wire_values::powers_of(bytes).ok_or(DecodeError::NotFinite)?;
        Ok(Decoded::Powers(powers))
    } else {
        let power = wire_values::power_of(bytes, 0).ok_or(DecodeError::NotFinite)?;
        Ok(Decoded::OnePower(power))
    }
}
