// A lapse: no reply came to the open ask.
ghost use Rattle.std.specs.Prelude.{◌≡◌};
ghost use Rattle.refusal.specs.Outcome.{outcome};
ghost use Rattle.energy_log.specs.View.{view_of};
ghost use Rattle.logger.specs.Lapse.{one_more, lapsing, lapsed, error_number};

use crate::held::{Answered, Decided, OpenAsk};
use energy_log::Change;
use refusal::Numbered;

#[derive(Clone, Copy, PartialEq, Eq)]
pub enum LapseError {
    NotInLog,
    Unsound,
}

pub type Lapsed = Answered<LapseError>;

type LapseDecision = Decided<LapseError>;

impl Numbered for LapseError {
    // Document 01's number.
    ghost number_of = { error_number };

    fn number(&self) -> u8 {
        match self {
            LapseError::NotInLog => refusal::NOT_IN_LOG,
            LapseError::Unsound => refusal::UNSOUND,
        }
    }
}

// Closes the open ask, and counts a lapse more for its cell. With none open it does nothing, whatever the log is.
#[tactic(auto, unfolding(crate::specs::Lapse::lapsed))]
pub fn lapse(log: &mut [u8], held: Option<OpenAsk>) -> Lapsed
    ensures { outcome result log.new ≡ lapsed log.old held }
{
    let lapsing = lapsing(log, held);
    energy_log::apply(log, lapsing.change);
    lapsing.answered
}

// What it comes to, check after check. The log is only read.
#[tactic(auto, unfolding(crate::specs::Lapse::lapsing))]
fn lapsing(log: &[u8], held: Option<OpenAsk>) -> LapseDecision
    ensures { result ≡ lapsing (view_of log.now) held }
{
    let Some(OpenAsk { day, slot, .. }) = held else {
        return Decided::closes(Ok(()), Change::None);
    };
    let Some(h) = log_header::sound(log) else {
        return Decided::stays(Err(LapseError::Unsound), held);
    };
    let Some(i) = log_header::interval_of(h, day, slot) else {
        return Decided::stays(Err(LapseError::NotInLog), held);
    };
    let Some(_) = energy_log::cell_at(log, i) else {
        return Decided::stays(Err(LapseError::Unsound), held);
    };
    Decided::closes(
        Ok(()),
        Change::Lapses(i, one_more(energy_log::lapses_at(log, i))),
    )
}

// A cell's count of lapses stays at 255.
#[tactic(auto, unfolding(crate::specs::Lapse::one_more))]
fn one_more(lapses: u8) -> u8
    ensures { result ≡ one_more lapses }
{
    lapses.saturating_add(1)
}
