// The answer to a request.
ghost use Rattle.std.specs.Prelude.{◌≡◌, ◌≤◌, length};
ghost use Rattle.byte_numbers.specs.Place.{written};
ghost use Rattle.frame.specs.Layout.{longest};
ghost use Rattle.refusal.specs.Outcome.{outcome};
ghost use Rattle.mercury.specs.Layout.{data_place};
ghost use Rattle.mercury.specs.Form.{request_form};
ghost use Rattle.mercury_bench.specs.Reply.{data_of, reply_of, command_in, heard, answered, error_number};

use crate::meter::{Meter, is_within};
use frame::layout::LONGEST;
use mercury::{Command, Fault, layout};
use refusal::Numbered;

#[derive(Clone, Copy, PartialEq, Eq)]
pub enum AnswerError {
    TooShort,
    // A figure above its digits.
    OutOfRange,
    // The bytes are no request to this meter: it is silent.
    Silent(Fault),
}

impl Numbered for AnswerError {
    // The papers' number.
    ghost number_of = { error_number };

    fn number(&self) -> u8 {
        match self {
            AnswerError::TooShort => refusal::TOO_SHORT,
            AnswerError::OutOfRange => refusal::OUT_OF_RANGE,
            AnswerError::Silent(_) => refusal::MERCURY_FORM,
        }
    }
}

// The meter's answer: the reply goes to the front of `out`.
#[tactic(auto, unfolding(crate::specs::Reply::answered))]
pub fn answer(m: Meter, request: &[u8], out: &mut [u8]) -> Result<usize, AnswerError>
    ensures { outcome result out.new ≡ answered m request.now out.old }
{
    if out.len() < LONGEST {
        return Err(AnswerError::TooShort);
    }
    if !is_within(m) {
        return Err(AnswerError::OutOfRange);
    }
    heard(m, request, out)
}

#[tactic(auto, unfolding(crate::specs::Reply::heard))]
fn heard(m: Meter, request: &[u8], out: &mut [u8]) -> Result<usize, AnswerError>
    requires { longest ≤ length out.old }
    ensures { outcome result out.new
        ≡ heard (request_form m.address request.now) (command_in request.now) m out.old }
{
    mercury::request_form(m.address, request).map_err(AnswerError::Silent)?;
    let c = Command::from(byte_numbers::byte_at(request, layout::COMMAND));
    Ok(replied(c, m, out))
}

// Head, data and CRC, and how many bytes they are.
fn replied(c: Command, m: Meter, out: &mut [u8]) -> usize
    requires { longest ≤ length out.old }
    ensures { (result ≡ length (reply_of c m)) × (out.new ≡ written out.old 0 (reply_of c m)) }
{
    let size = c.data_bytes();
    mercury::put_head(out, m.address, u8::from(c));
    fill(out, c, m);
    frame::seal(out, layout::DATA + size);
    layout::BARE_BYTES + size
}

// The data part, lent on from its first byte to whoever fills it.
#[tactic(auto, using(crate::proofs::ReplyLaws::part_filled))]
fn fill(out: &mut [u8], c: Command, m: Meter)
    requires { longest ≤ length out.old }
    ensures { out.new ≡ written out.old data_place (data_of c m) }
{
    put_data(&mut out[layout::DATA..], c, m);
}

#[tactic(auto, unfolding(crate::specs::Reply::data_of, byte_numbers::specs::Place::written))]
fn put_data(out: &mut [u8], c: Command, m: Meter)
    ensures { out.new ≡ written out.old 0 (data_of c m) }
{
    match c {
        Command::Tariffs => mercury::put_tariffs(out, m.tariffs),
        Command::Load => mercury::put_load(out, m.load),
        Command::Frequency => mercury::put_frequency(out, m.frequency),
        Command::Unknown => {}
    }
}
