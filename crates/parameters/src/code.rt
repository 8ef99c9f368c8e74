// The codes of the SS-301 operator's instruction 3.16.
ghost use Rattle.std.specs.Prelude.{◌≡◌};
ghost use Rattle.parameters.specs.Code.{function_of, reading_code};

// Functions (sections 4 and 5).
pub const READ: u8 = 3;

pub const READ_DISPLAYED: u8 = 4;

pub const CHANGE: u8 = 16;

pub const ZERO: u8 = 30;

pub const UNLOCK: u8 = 31;

pub const LOCK: u8 = 32;
// Added to the function of a reply whose result is not 0.
pub const REFUSED: u8 = 128;

// Parameters (Appendix A). No parameter that is known has the code 0, so it stands for those that are not.
pub const UNKNOWN: u8 = 0;

pub const ACTIVE_POWER: u8 = 8;

pub const REACTIVE_POWER: u8 = 9;

pub const ADDRESS: u8 = 21;

pub const TELEMETRY: u8 = 24;

pub const SUMMER_DATE: u8 = 27;

pub const WINTER_DATE: u8 = 28;

pub const CLOCK: u8 = 32;

pub const DISPLAY_MASK: u8 = 35;

pub const SLICE: u8 = 36;

pub const PASSWORD: u8 = 37;

pub const SIX_SLICES: u8 = 40;

// Results (Appendix B).
pub const OK: u8 = 0;

pub const UNKNOWN_FUNCTION: u8 = 1;

pub const UNKNOWN_PARAMETER: u8 = 2;

pub const WRONG_ARGUMENT: u8 = 3;

pub const NO_ACCESS: u8 = 4;

// What a read is answered with.
#[derive(Clone, Copy, PartialEq, Eq)]
pub enum Reading {
    // Figures as the meter keeps them.
    Stored,
    // Figures as its display shows them.
    Displayed,
}

#[derive(Clone, Copy, PartialEq, Eq)]
pub enum Function {
    Read(Reading),
    Change,
    Zero,
    Unlock,
    Lock,
    Unknown,
}

#[derive(Clone, Copy, PartialEq, Eq)]
pub enum Parameter {
    ActivePower,
    ReactivePower,
    Address,
    Telemetry,
    SummerDate,
    WinterDate,
    Clock,
    DisplayMask,
    Slice,
    Password,
    SixSlices,
    Unknown,
}

impl From<u8> for Function {
    ghost from_gives = { λ code gives. gives ≡ function_of code };

    #[tactic(auto, unfolding(crate::specs::Code::function_of))]
    fn from(code: u8) -> Function {
        match code {
            READ => Function::Read(Reading::Stored),
            READ_DISPLAYED => Function::Read(Reading::Displayed),
            CHANGE => Function::Change,
            ZERO => Function::Zero,
            UNLOCK => Function::Unlock,
            LOCK => Function::Lock,
            _ => Function::Unknown,
        }
    }
}

// The function of a read request.
impl From<Reading> for u8 {
    ghost from_gives = { λ reading gives. gives ≡ reading_code reading };

    fn from(reading: Reading) -> u8 {
        match reading {
            Reading::Stored => READ,
            Reading::Displayed => READ_DISPLAYED,
        }
    }
}
