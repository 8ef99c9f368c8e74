// Replies decoded against their request.
ghost use Rattle.std.specs.Prelude.{◌≡◌};
ghost use Rattle.mercury.specs.Reply.{figures_of, decoded_of, error_number};

use crate::command::Command;
use crate::data;
use crate::form::{Fault, reply_form};
use crate::layout::DATA;
use crate::units::{Frequency, Load, Tariffs};
use refusal::Numbered;

#[derive(Clone, Copy)]
pub enum Decoded {
    Tariffs(Tariffs),
    Load(Load),
    Frequency(Frequency),
}

#[derive(Clone, Copy, PartialEq, Eq)]
pub enum DecodeError {
    Malformed(Fault),
    // A half-byte of a figure is above 9.
    NotDecimal,
}

impl Numbered for DecodeError {
    // The papers' number.
    ghost number_of = { error_number };

    fn number(&self) -> u8 {
        match self {
            DecodeError::Malformed(_) => refusal::MERCURY_FORM,
            DecodeError::NotDecimal => refusal::MERCURY_DIGIT,
        }
    }
}

// A reply to the request with this address and command.
#[tactic(auto, unfolding(crate::specs::Reply::decoded_of, crate::specs::Reply::formed))]
pub fn decode(address: u32, code: u8, reply: &[u8]) -> Result<Decoded, DecodeError>
    ensures { result ≡ decoded_of address code reply.now }
{
    reply_form(address, code, reply).map_err(DecodeError::Malformed)?;
    figures_of(Command::from(code), byte_numbers::tail(reply, DATA))
}

#[tactic(auto, unfolding(crate::specs::Reply::figures_of))]
fn figures_of(c: Command, bytes: &[u8]) -> Result<Decoded, DecodeError>
    ensures { result ≡ figures_of c bytes.now }
{
    match c {
        Command::Tariffs => data::tariffs_of(bytes),
        Command::Load => data::load_of(bytes),
        Command::Frequency => data::frequency_of(bytes),
        Command::Unknown => Err(DecodeError::Malformed(Fault::Command)),
    }
}
