// The numbers of document 01's refusal table and of document 02's requests, by name, and what has one: every refusal of a call, and so
// every call's answer. What each number leaves behind stands in the table.
#![tactic(auto)]

ghost use Rattle.std.specs.Prelude.{◌≡◌, ℕ};
ghost use Rattle.refusal.specs.Number.{answer_number};

// What has a number of the table.
pub trait Numbered {
    ghost number_of: { Self → ℕ };

    fn number(&self) -> u8
        ensures { result ≡ number_of self.now };
}

// A call that is done answers 0, and one that is refused its refusal's number.
impl<T, E: Numbered> Numbered for Result<T, E> {
    ghost number_of = { answer_number E.number_of };

    fn number(&self) -> u8 {
        match self {
            Ok(_) => DONE,
            Err(refusal) => refusal.number(),
        }
    }
}

pub const DONE: u8 = 0;
// A lent output that is too short.
pub const TOO_SHORT: u8 = 1;
// A frame with a wrong length, CRC or address, which the meter passes over.
pub const SILENT: u8 = 2;

pub const UNKNOWN_FUNCTION: u8 = 10;

pub const UNKNOWN_PARAMETER: u8 = 11;
// A parameter that is not open to the function.
pub const NOT_OPEN: u8 = 12;

pub const WRONG_LENGTH: u8 = 13;
// A level too low, or a wrong password.
pub const NO_ACCESS: u8 = 14;

pub const WRONG_ARGUMENT: u8 = 15;
// A change or a zeroing by address 0, which any meter on the line would have taken.
pub const BY_ADDRESS_ZERO: u8 = 16;

pub const NO_ASK_OPEN: u8 = 20;

pub const ASK_ALREADY_OPEN: u8 = 21;
// An interval or a day that is not in the log.
pub const NOT_IN_LOG: u8 = 22;
// A reply whose result is not 0.
pub const METER_REFUSED: u8 = 24;
// Other counts than those measured.
pub const OTHER_COUNTS: u8 = 25;
// A power that is an infinity or no number.
pub const NOT_FINITE: u8 = 26;
// A setting, a header or a request out of range.
pub const OUT_OF_RANGE: u8 = 27;
// A lent log or record that is not sound.
pub const UNSOUND: u8 = 28;

pub const FILE_MARK: u8 = 30;

pub const FILE_VERSION: u8 = 31;

pub const FILE_HEADER: u8 = 32;

pub const FILE_LENGTH: u8 = 33;

pub const FILE_CRC: u8 = 34;

pub const FILE_CELL: u8 = 35;
// A Mercury 206's frame with a wrong length, CRC, address or command.
pub const MERCURY_FORM: u8 = 40;
// A half-byte above 9 in a Mercury 206's figure.
pub const MERCURY_DIGIT: u8 = 41;

// A reply that is not well formed: of a wrong length,
pub const REPLY_LENGTH: u8 = 50;
// with a wrong CRC,
pub const REPLY_CRC: u8 = 51;
// of another address,
pub const REPLY_ADDRESS: u8 = 52;
// with another function, or a top bit that belies the result,
pub const REPLY_FUNCTION: u8 = 53;
// about another parameter.
pub const REPLY_PARAMETER: u8 = 54;
