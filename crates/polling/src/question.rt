// What a poll asks before the log's intervals: the meter's clock, the weight of its counts, and its interval.
ghost use Rattle.std.specs.Prelude.{◌≡◌};
ghost use Rattle.refusal.specs.Outcome.{outcome};
ghost use Rattle.parameters.specs.declared.code.Reading.TheVariants.{Stored};
ghost use Rattle.request.specs.Request.{requested};
ghost use Rattle.polling.specs.Question.{question_of, full_size, figure_of, refusal_of, learned_of, fits_log};

use calendar::DateTime;
use frame::layout;
use log_header::Header;
use parameters::code;
use parameters::code::Reading;
use reader::{Fault, ReplyError};
use request::{Request, RequestError};

#[derive(Clone, Copy)]
pub enum Question {
    Clock,
    // Ke, the milliwatt-hours for a count.
    Weight,
    // Whether the meter has a slice that only a day of 15-minute intervals has.
    Interval,
}

#[derive(Clone, Copy)]
pub enum Learned {
    // The bytes as they were sent: whether they are a time, the calendar says.
    Clock(DateTime),
    Ke(u16),
    Minutes(u8),
    // The meter's result.
    Refused(u8),
    Malformed(Fault),
}

const JANUARY: u8 = 1;

const FIRST_DAY: u8 = 1;

// The first slot that a day of 30-minute intervals does not have.
const BEYOND_HALF_HOURS: u8 = 48;

const QUARTER: u8 = 15;

const HALF: u8 = 30;

// Puts a question's frame to the front of a lent output.
pub fn put_question(question: Question, address: u8, out: &mut [u8]) -> Result<(), RequestError>
    ensures { outcome result out.new ≡ requested (question_of question address) out.old }
{
    request::put_request(request_of(question, address), out)
}

// How many bytes the reply has that answers a question.
pub fn answer_bytes(question: Question) -> usize
    ensures { result ≡ full_size (question_of question 0) }
{
    full_bytes(request_of(question, 0))
}

// What a reply to a question tells.
#[tactic(auto, unfolding(crate::specs::Question::learned_of))]
pub fn learned_from(question: Question, address: u8, reply: &[u8]) -> Learned
    ensures { result ≡ learned_of question address reply.now }
{
    let q = request_of(question, address);
    match reader::reply_of(address, code::READ, q.parameter, full_bytes(q), reply) {
        Err(ReplyError::Malformed(fault)) => Learned::Malformed(fault),
        Err(ReplyError::Refused(result)) => refusal_of(question, result),
        Ok(()) => figure_of(question, byte_numbers::tail(reply, layout::DATA)),
    }
}

// Whether what was learned of the meter is as the log has it.
#[tactic(auto, unfolding(crate::specs::Question::fits_log))]
pub fn fits_log(h: Header, l: Learned) -> bool
    ensures { result ≡ fits_log h l }
{
    match l {
        Learned::Clock(_) => true,
        Learned::Ke(ke) => ke == h.ke,
        Learned::Minutes(minutes) => minutes == h.minutes,
        Learned::Refused(_) | Learned::Malformed(_) => false,
    }
}

#[tactic(auto, unfolding(crate::specs::Question::question_of))]
fn request_of(question: Question, address: u8) -> Request
    ensures { result ≡ question_of question address }
{
    match question {
        Question::Clock => plain(address, code::CLOCK),
        Question::Weight => plain(address, code::TELEMETRY),
        Question::Interval => Request {
            reading: Reading::Stored,
            address,
            parameter: code::SLICE,
            offset: JANUARY,
            tariff: FIRST_DAY,
            detail: BEYOND_HALF_HOURS,
        },
    }
}

// A request whose other fields are unused.
fn plain(address: u8, parameter: u8) -> Request
    ensures { result ≡ record { reading = Stored; address = address; parameter = parameter; offset = 0; tariff = 0; detail = 0 } }
{
    Request {
        reading: Reading::Stored,
        address,
        parameter,
        offset: 0,
        tariff: 0,
        detail: 0,
    }
}

#[tactic(auto, unfolding(crate::specs::Question::full_size))]
fn full_bytes(q: Request) -> usize
    ensures { result ≡ full_size q }
{
    layout::BARE_BYTES + request::data_bytes(request::subject_of(q, request::MOST_SLOTS))
}

#[tactic(auto, unfolding(crate::specs::Question::figure_of))]
fn figure_of(question: Question, bytes: &[u8]) -> Learned
    ensures { result ≡ figure_of question bytes.now }
{
    match question {
        Question::Clock => Learned::Clock(wire_values::date_time_of(bytes)),
        Question::Weight => Learned::Ke(wire_values::telemetry_of(bytes).ke),
        Question::Interval => Learned::Minutes(QUARTER),
    }
}

#[tactic(auto, unfolding(crate::specs::Question::refusal_of))]
fn refusal_of(question: Question, res: u8) -> Learned
    ensures { result ≡ refusal_of question res }
{
    match question {
        Question::Clock | Question::Weight => Learned::Refused(res),
        Question::Interval => Learned::Minutes(HALF),
    }
}
