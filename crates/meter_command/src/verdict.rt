// What became of a frame.
ghost use Rattle.std.specs.Prelude.{◌≡◌};
ghost use Rattle.meter_command.specs.Verdict.{error_number, result_of, is_done};

use parameters::code;
use refusal::Numbered;

#[derive(Clone, Copy, PartialEq, Eq)]
pub enum Refusal {
    TooShort,
    Unsound,
    // No answer: not a frame, or not for this meter.
    Silent,
    UnknownFunction,
    UnknownParameter,
    NotOpen,
    WrongLength,
    // A change or a zeroing that came by address 0.
    ByAddressZero,
    NoAccess,
    WrongArgument,
}

impl Numbered for Refusal {
    // Document 01's number.
    ghost number_of = { error_number };

    fn number(&self) -> u8 {
        match self {
            Refusal::TooShort => refusal::TOO_SHORT,
            Refusal::Unsound => refusal::UNSOUND,
            Refusal::Silent => refusal::SILENT,
            Refusal::UnknownFunction => refusal::UNKNOWN_FUNCTION,
            Refusal::UnknownParameter => refusal::UNKNOWN_PARAMETER,
            Refusal::NotOpen => refusal::NOT_OPEN,
            Refusal::WrongLength => refusal::WRONG_LENGTH,
            Refusal::ByAddressZero => refusal::BY_ADDRESS_ZERO,
            Refusal::NoAccess => refusal::NO_ACCESS,
            Refusal::WrongArgument => refusal::WRONG_ARGUMENT,
        }
    }
}

pub fn is_done(v: Result<(), Refusal>) -> bool
    ensures { result ≡ is_done v }
{
    v.is_ok()
}

// The result byte of a reply. Silence has none.
pub fn result_of(v: Result<(), Refusal>) -> u8
    ensures { result ≡ result_of v }
{
    match v {
        Ok(()) => code::OK,
        Err(Refusal::UnknownFunction) => code::UNKNOWN_FUNCTION,
        Err(Refusal::UnknownParameter) => code::UNKNOWN_PARAMETER,
        Err(Refusal::ByAddressZero | Refusal::NoAccess) => code::NO_ACCESS,
        Err(_) => code::WRONG_ARGUMENT,
    }
}
