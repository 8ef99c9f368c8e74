// Asking for an interval.
ghost use Rattle.std.specs.Prelude.{◌≡◌, true, ◌≤◌, ◌<◌, length};
ghost use Rattle.refusal.specs.Outcome.{outcome};
ghost use Rattle.frame.specs.Layout.{read_size};
ghost use Rattle.slots.specs.Day.{slots_of};
ghost use Rattle.log_header.specs.Header.{is_header};
ghost use Rattle.energy_log.specs.View.{view_of};
ghost use Rattle.byte_numbers.specs.Place.{written};
ghost use Rattle.logger.specs.Ask.{asked, ask_frame, error_number};

use crate::held::{Answered, OpenAsk};
use frame::layout::READ_BYTES;
use log_header::Header;
use parameters::code;
use parameters::code::Reading;
use refusal::Numbered;
use request::Request;

#[derive(Clone, Copy, PartialEq, Eq)]
pub enum AskError {
    TooShort,
    Unsound,
    AlreadyOpen,
    NotInLog,
}

pub type Asked = Answered<AskError>;

impl Numbered for AskError {
    // Document 01's number.
    ghost number_of = { error_number };

    fn number(&self) -> u8 {
        match self {
            AskError::TooShort => refusal::TOO_SHORT,
            AskError::Unsound => refusal::UNSOUND,
            AskError::AlreadyOpen => refusal::ASK_ALREADY_OPEN,
            AskError::NotInLog => refusal::NOT_IN_LOG,
        }
    }
}

// Opens an ask for a slot of a day, counted from 0, and puts its frame to the front of a lent output.
#[tactic(auto, unfolding(crate::specs::Ask::asked))]
pub fn put_ask(
    log: &[u8],
    held: Option<OpenAsk>,
    address: u8,
    day: u8,
    slot: u8,
    out: &mut [u8],
) -> Asked
    ensures { outcome result out.new ≡ asked (view_of log.now) held address day slot out.old }
{
    if out.len() < READ_BYTES {
        return answered(Err(AskError::TooShort), held);
    }
    let Some(h) = log_header::sound(log) else {
        return answered(Err(AskError::Unsound), held);
    };
    if held.is_some() {
        return answered(Err(AskError::AlreadyOpen), held);
    }
    let Some(_) = log_header::interval_of(h, day, slot) else {
        return answered(Err(AskError::NotInLog), held);
    };
    put_slot(h, address, day, slot, out);
    answered(Ok(()), Some(OpenAsk { address, day, slot }))
}

fn answered(answer: Result<(), AskError>, held: Option<OpenAsk>) -> Asked
    ensures { result ≡ record { answer = answer; held = held } }
{
    Asked { answer, held }
}

fn put_slot(h: Header, address: u8, day: u8, slot: u8, out: &mut [u8])
    requires h_value { is_header h ≡ true }
    requires day_lt_days { day < h.days }
    requires slot_bound { slot < slots_of h.minutes }
    requires read_size_in_bounds { read_size ≤ length out.old }
    ensures { out.new ≡ written out.old 0 (ask_frame h address day slot) }
{
    if let Some(date) = log_header::date_of(h, day) {
        let q = Request {
            reading: Reading::Stored,
            address,
            parameter: code::SLICE,
            offset: date.month,
            tariff: date.day,
            detail: slot,
        };
        // Never refused: the slot is one of the log's, and there is room.
        let _ = request::put_request(q, out);
    }
}
