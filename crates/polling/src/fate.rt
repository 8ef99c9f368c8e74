// What becomes of an ask.
ghost use Rattle.std.specs.Prelude.{◌≡◌};
ghost use Rattle.refusal.specs.Outcome.{outcome};
ghost use Rattle.day_rows.specs.LogAndRows.{log_and_rows};
ghost use Rattle.polling.specs.Fate.{heard, ask_settled, fate_of, fate_lapsed};

use logger::{LapseError, OpenAsk, TakeError};
use reader::Fault;
use refusal::Numbered;

#[derive(Clone, Copy)]
pub enum Fate {
    // The interval's cell is no gap any more.
    Taken,
    Silent,
    // A reply that is not well formed, and what is wrong with it.
    Malformed(Fault),
    // The meter's result was not 0.
    Refused,
    // Any other number of the refusal table, which an ask for a gap does not give.
    Stopped(u8),
}

// The fate, and the ask that is open after it.
#[derive(Clone, Copy)]
pub struct Settled {
    pub fate: Fate,
    pub held: Option<OpenAsk>,
}

// Takes what was heard for the open ask into the log, and lets the ask lapse, which closes it where the reply did not: with nothing
// heard, and after a reply that is not well formed. The interval then stays a gap, and the log counts the lapse.
pub fn settle(log: &mut [u8], figures: &mut [u32], held: Option<OpenAsk>, reply: &[u8]) -> Settled
    ensures { outcome result (log_and_rows log.new figures.new)
        ≡ ask_settled (log_and_rows log.old figures.old) held reply.now }
{
    let heard = heard(log, figures, held, reply);
    let lapsed = logger::lapse(log, heard.held);
    Settled {
        fate: fate_lapsed(lapsed.answer, heard.fate),
        held: lapsed.held,
    }
}

// A lapse is refused by a log that is none, and then the poll stops.
fn fate_lapsed(answer: Result<(), LapseError>, fate: Fate) -> Fate
    ensures { result ≡ fate_lapsed answer fate }
{
    match answer {
        Ok(()) => fate,
        Err(refusal) => Fate::Stopped(refusal.number()),
    }
}

fn heard(log: &mut [u8], figures: &mut [u32], held: Option<OpenAsk>, reply: &[u8]) -> Settled
    ensures { outcome result (log_and_rows log.new figures.new)
        ≡ heard (log_and_rows log.old figures.old) held reply.now }
{
    if reply.is_empty() {
        return Settled {
            fate: Fate::Silent,
            held,
        };
    }
    let taken = logger::take_reply(log, figures, held, reply);
    Settled {
        fate: fate_of(taken.answer),
        held: taken.held,
    }
}

fn fate_of(answer: Result<(), TakeError>) -> Fate
    ensures { result ≡ fate_of answer }
{
    match answer {
        Ok(()) => Fate::Taken,
        Err(TakeError::Malformed(fault)) => Fate::Malformed(fault),
        Err(TakeError::MeterRefused(_)) => Fate::Refused,
        Err(refusal) => Fate::Stopped(refusal.number()),
    }
}
