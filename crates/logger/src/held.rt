// The open ask, and what a call leaves of it.
ghost use Rattle.std.specs.Prelude.{◌≡◌};
ghost use Rattle.logger.specs.Held.{stays, closes};

use energy_log::Change;

// An ask that is open, by what was asked for. A caller holds `Option<OpenAsk>`: at most one ask is open.
#[derive(Clone, Copy, PartialEq, Eq)]
pub struct OpenAsk {
    pub address: u8,
    // Counted from 0, as the slot is.
    pub day: u8,
    pub slot: u8,
}

// A call's answer, and the ask that is open after it.
#[derive(Clone, Copy)]
pub struct Answered<E> {
    pub answer: Result<(), E>,
    pub held: Option<OpenAsk>,
}

// What a call comes to, before anything is done to the log.
#[derive(Clone, Copy)]
pub struct Decided<E> {
    pub answered: Answered<E>,
    pub change: Change,
}

impl<E> Decided<E> {
    // All stays as it was.
    pub fn stays(answer: Result<(), E>, held: Option<OpenAsk>) -> Self
        ensures { result ≡ stays answer held }
    {
        Decided {
            answered: Answered { answer, held },
            change: Change::None,
        }
    }

    // None is open after it.
    pub fn closes(answer: Result<(), E>, change: Change) -> Self
        ensures { result ≡ closes answer change }
    {
        Decided {
            answered: Answered { answer, held: None },
            change,
        }
    }
}
