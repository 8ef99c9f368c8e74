// A line by its first word.
ghost use Rattle.std.specs.Prelude.{◌≡◌};
ghost use Rattle.refusal.specs.Outcome.{outcome};
ghost use Rattle.console_mercury.specs.Lines.{verb_of, is_named, setting_of, asked_by, called_line};

use crate::answer::{Answer, Called};
use crate::lines;
use crate::setting::{LineError, set};
use mercury_bench::Meter;

const METER: usize = 0;

const FRAME: usize = 1;

const ASK: usize = 2;

const DECODE: usize = 3;

#[tactic(auto, unfolding(crate::specs::Lines::verb_of, text::specs::Ascii::ascii))]
fn verb_of(line: &[u8]) -> usize
    ensures { result ≡ verb_of line.now }
{
    console::place_of(
        console::word(line, 0),
        b"mercury mercury-frame mercury-ask mercury-decode",
    )
}

// Whether a line is about the Mercury 206.
pub fn is_named(line: &[u8]) -> bool
    ensures { result ≡ is_named line.now }
{
    verb_of(line) <= DECODE
}

// Takes the bench's meter, and gives the one that stands after the line; frames go to the front of the output.
#[tactic(auto, unfolding(crate::specs::Lines::called_line))]
pub fn called(line: &[u8], m: Meter, out: &mut [u8]) -> Called
    ensures { outcome result out.new ≡ called_line m line.now out.old }
{
    let verb = verb_of(line);
    if verb == METER {
        return setting(set(line), m);
    }
    Called {
        answer: asked(verb, line, m, out),
        after: m,
    }
}

// What leaves the meter as it is.
#[tactic(auto, unfolding(crate::specs::Lines::asked_by))]
fn asked(verb: usize, line: &[u8], m: Meter, out: &mut [u8]) -> Answer
    ensures { outcome result out.new ≡ asked_by verb m line.now out.old }
{
    match verb {
        FRAME => lines::frame(line, m, out),
        ASK => lines::ask(line, out),
        DECODE => lines::decode(line),
        _ => Answer::Unread,
    }
}

// One that is refused or not read keeps the meter.
fn setting(line: Result<Meter, LineError>, m: Meter) -> Called
    ensures { result ≡ setting_of line m }
{
    match line {
        Ok(after) => Called {
            answer: Answer::Number(refusal::DONE),
            after,
        },
        Err(LineError::OutOfRange) => Called {
            answer: Answer::Number(refusal::OUT_OF_RANGE),
            after: m,
        },
        Err(LineError::Unread) => Called {
            answer: Answer::Unread,
            after: m,
        },
    }
}
