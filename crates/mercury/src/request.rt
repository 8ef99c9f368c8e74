// Requests.
ghost use Rattle.std.specs.Prelude.{◌≡◌};
ghost use Rattle.refusal.specs.Outcome.{outcome};
ghost use Rattle.mercury.specs.Request.{requested, error_number};

use crate::command::Command;
use crate::head::put_head;
use crate::layout::{BARE_BYTES, DATA};
use refusal::Numbered;

#[derive(Clone, Copy, PartialEq, Eq)]
pub enum RequestError {
    TooShort,
    UnknownCommand,
}

impl Numbered for RequestError {
    // The papers' number.
    ghost number_of = { error_number };

    fn number(&self) -> u8 {
        match self {
            RequestError::TooShort => refusal::TOO_SHORT,
            RequestError::UnknownCommand => refusal::MERCURY_FORM,
        }
    }
}

// Puts a request's frame to the front of a lent output.
#[tactic(auto, unfolding(crate::specs::Request::requested, crate::specs::Request::request_frame))]
pub fn put_request(address: u32, code: u8, out: &mut [u8]) -> Result<(), RequestError>
    ensures { outcome result out.new ≡ requested address code out.old }
{
    if out.len() < BARE_BYTES {
        return Err(RequestError::TooShort);
    }
    if !Command::from(code).is_known() {
        return Err(RequestError::UnknownCommand);
    }
    put_head(out, address, code);
    frame::seal(out, DATA);
    Ok(())
}
