// A read request sent to the bench meter and its reply decoded, in one call.
#![tactic(auto)]

ghost use Rattle.std.specs.Prelude.{◌≡◌, true, ◌≤◌, length};
ghost use Rattle.frame.specs.Layout.{longest};
ghost use Rattle.request.specs.Request.{request_frame};
ghost use Rattle.request.specs.Subject.{subject_of, most_slots, askable};
ghost use Rattle.meter_round_trip.specs.declared.InquiryError.TheVariants.{Undecoded};
ghost use Rattle.meter_round_trip.specs.Inquiry.{error_number, outcome, is_silent, asked, inquired};

use frame::layout::{LONGEST, READ_BYTES};
use meter_command::Refusal;
use meter_record::Record;
use reader::{DecodeError, Decoded};
use refusal::Numbered;
use request::Request;

#[derive(Clone, Copy, PartialEq, Eq)]
pub enum InquiryError {
    TooShort,
    Unsound,
    // The meter did not hear a request for another address.
    Silent,
    // What the reader says, of the reply or of a request that no meter would answer.
    Undecoded(DecodeError),
}

impl From<DecodeError> for InquiryError {
    ghost from_gives = { λ e r. r ≡ Undecoded e };

    fn from(e: DecodeError) -> InquiryError {
        InquiryError::Undecoded(e)
    }
}

impl Numbered for InquiryError {
    // Document 01's number.
    ghost number_of = { error_number };

    fn number(&self) -> u8 {
        match self {
            InquiryError::TooShort => refusal::TOO_SHORT,
            InquiryError::Unsound => refusal::UNSOUND,
            InquiryError::Silent => refusal::SILENT,
            InquiryError::Undecoded(error) => error.number(),
        }
    }
}

// The reply stays in the output, from which `six_slices` takes the rows of parameter 40.
#[tactic(auto, unfolding(crate::specs::Inquiry::inquired))]
pub fn inquire(
    r: Record,
    store: &mut [u8],
    q: Request,
    out: &mut [u8],
) -> Result<Decoded, InquiryError>
    ensures { outcome result store.new out.new ≡ inquired r store.old q out.old }
{
    if out.len() < LONGEST {
        return Err(InquiryError::TooShort);
    }
    if !meter::is_sound(r, store) {
        return Err(InquiryError::Unsound);
    }
    if !request::is_askable(request::subject_of(q, request::MOST_SLOTS)) {
        return Err(InquiryError::Undecoded(DecodeError::OutOfRange));
    }
    ask(r, store, q, out)
}

// The frame of a request that a meter could answer.
fn frame_of(q: Request) -> [u8; READ_BYTES]
    requires { askable (subject_of q most_slots) ≡ true }
    ensures { result ≡ request_frame q }
{
    let mut frame = [0u8; READ_BYTES];
    // Never refused: it is askable, and there is room.
    let _ = request::put_request(q, &mut frame);
    frame
}

fn ask(r: Record, store: &mut [u8], q: Request, out: &mut [u8]) -> Result<Decoded, InquiryError>
    requires most_slots_value { askable (subject_of q most_slots) ≡ true }
    requires longest_in_bounds { longest ≤ length out.old }
    ensures { outcome result store.new out.new ≡ asked r store.old q out.old }
{
    let frame = frame_of(q);
    let a = meter::answer(r, store, &frame, out);
    if is_silent(a.verdict) {
        return Err(InquiryError::Silent);
    }
    Ok(reader::decode(q, &out[..a.length])?)
}

fn is_silent(v: Result<(), Refusal>) -> bool
    ensures { result ≡ is_silent v }
{
    v == Err(Refusal::Silent)
}
