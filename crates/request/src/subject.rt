// What a request asks for.
ghost use Rattle.std.specs.Prelude.{◌≡◌, ◌-◌};
ghost use Rattle.request.specs.Subject.{key_of, unused, is_phase, fields_fit, subject_of, askable, data_bytes};

use crate::request::Request;
use parameters::code::{Parameter, Reading};
use parameters::table;
use parameters::table::Fields;
use slots::Key;

// What a request asks for: the figures of a parameter, as stored or as displayed, by the detail.
#[derive(Clone, Copy, PartialEq, Eq)]
pub struct Subject {
    pub reading: Reading,
    pub parameter: Parameter,
    pub detail: u8,
}

// The slots of a day of 15-minute slices: it has every number that a day of 30-minute ones has.
pub const MOST_SLOTS: u8 = 96;

const PHASES: u8 = 3;
// Six slices are the named one and so many after it.
const AFTER: u8 = 5;

// What a request asks of a meter whose day has so many slots; nothing, where the meter would not answer it with 0.
#[tactic(auto, unfolding(crate::specs::Subject::subject_of, crate::specs::Subject::subject_for))]
pub fn subject_of(q: Request, slots: u8) -> Option<Subject>
    ensures { result ≡ subject_of q slots }
{
    let p = Parameter::from(q.parameter);
    let row = table::parameter_row(p);
    if table::opens_to(q.reading, row) && fields_fit(row.fields, q, slots) {
        Some(Subject {
            reading: q.reading,
            parameter: p,
            detail: q.detail,
        })
    } else {
        None
    }
}

// Whether offset, tariff and detail are such as a read of the parameter has.
pub fn fields_fit(fields: Fields, q: Request, slots: u8) -> bool
    ensures { result ≡ fields_fit fields q slots }
{
    match fields {
        Fields::Unused => are_unused(q),
        Fields::Phase => is_phase(q),
        Fields::Slot => slots::is_legal(key_of(q), slots),
        Fields::SixSlots => slots::is_legal(key_of(q), with_five_after(slots)),
    }
}

#[tactic(auto, unfolding(crate::specs::Subject::unused))]
fn are_unused(q: Request) -> bool
    ensures { result ≡ unused q }
{
    q.offset == 0 && q.tariff == 0 && q.detail == 0
}

// The detail names all phases and their total, or one phase.
#[tactic(auto, unfolding(crate::specs::Subject::is_phase))]
fn is_phase(q: Request) -> bool
    ensures { result ≡ is_phase q }
{
    q.offset == 0 && q.tariff == 0 && q.detail <= PHASES
}

// The key of a slice: month, day and number stand in place of offset, tariff and detail.
pub fn key_of(q: Request) -> Key
    ensures { result ≡ key_of q }
{
    Key {
        month: q.offset,
        day: q.tariff,
        number: q.detail,
    }
}

// How many of a day's slots have five more after them.
fn with_five_after(slots: u8) -> u8
    ensures { result ≡ slots - 5 }
{
    slots.saturating_sub(AFTER)
}

// Whether the meter could answer it with 0.
pub fn is_askable(subject: Option<Subject>) -> bool
    ensures { result ≡ askable subject }
{
    subject.is_some()
}

// How many data bytes the answer has.
pub fn data_bytes(subject: Option<Subject>) -> usize
    ensures { result ≡ data_bytes subject }
{
    match subject {
        Some(asked) => table::reply_bytes(asked.reading, asked.parameter, asked.detail),
        None => 0,
    }
}
