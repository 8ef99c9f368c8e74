// Taking a reply for the open ask.
ghost use Rattle.std.specs.Prelude.{◌≡◌, Err};
ghost use Rattle.refusal.specs.Outcome.{outcome};
ghost use Rattle.energy_log.specs.View.{view_of};
ghost use Rattle.log_cell.specs.Cell.{if_good};
ghost use Rattle.energy_log.specs.Image.{cell_at};
ghost use Rattle.day_rows.specs.LogAndRows.{log_and_rows};
ghost use Rattle.logger.specs.declared.take.TakeError.TheVariants.{Unsound};
ghost use Rattle.logger.specs.Take.{taken, decided, stays, updated, update_of, filled, compared, error_number, result_or, length_or};

use crate::held::{Answered, Decided, OpenAsk};
use day_rows::FigureError;
use energy_log::Change;
use frame::layout;
use log_cell::Cell;
use parameters::code;
use reader::{Fault, ReplyError};
use refusal::Numbered;
use wire_values::Row;

#[derive(Clone, Copy, PartialEq, Eq)]
pub enum TakeError {
    // There are fewer figures than the log has.
    TooShort,
    NoAskOpen,
    NotInLog,
    Malformed(Fault),
    // The meter's result.
    MeterRefused(u8),
    // Other counts than those measured.
    OtherCounts,
    // The log, its cell, or a figure that cannot follow it.
    Unsound,
}

pub type Taken = Answered<TakeError>;

type Decision = Decided<TakeError>;

// What a reply does to a cell.
#[derive(Clone, Copy)]
pub enum Update {
    Put(Cell),
    Keep,
    Conflict,
}

impl Numbered for TakeError {
    // Document 01's number, and document 02's of a reply that is not well formed.
    ghost number_of = { error_number };

    fn number(&self) -> u8 {
        match self {
            TakeError::TooShort => refusal::TOO_SHORT,
            TakeError::NoAskOpen => refusal::NO_ASK_OPEN,
            TakeError::NotInLog => refusal::NOT_IN_LOG,
            TakeError::Malformed(fault) => fault.number(),
            TakeError::MeterRefused(_) => refusal::METER_REFUSED,
            TakeError::OtherCounts => refusal::OTHER_COUNTS,
            TakeError::Unsound => refusal::UNSOUND,
        }
    }
}

impl TakeError {
    // The meter's result, which 24 alone returns.
    pub fn result_or(self, other: u8) -> u8
        ensures { result ≡ result_or (Err self) other }
    {
        match self {
            TakeError::MeterRefused(result) => result,
            _ => other,
        }
    }

    // The length received, which 50 alone returns.
    pub fn length_or(self, other: usize) -> usize
        ensures { result ≡ length_or (Err self) other }
    {
        match self {
            TakeError::Malformed(fault) => fault.length_or(other),
            _ => other,
        }
    }
}

impl Answered<TakeError> {
    // What 24 returns, of any answer: the others leave what was there.
    pub fn result_or(self, other: u8) -> u8
        ensures { result ≡ result_or self.answer other }
    {
        self.answer
            .err()
            .map_or(other, |refusal| refusal.result_or(other))
    }

    // And what 50 returns.
    pub fn length_or(self, other: usize) -> usize
        ensures { result ≡ length_or self.answer other }
    {
        self.answer
            .err()
            .map_or(other, |refusal| refusal.length_or(other))
    }
}

// Takes a reply for the open ask into the log, and keeps its day's figures right.
#[tactic(auto, unfolding(crate::specs::Take::taken))]
pub fn take_reply(log: &mut [u8], figures: &mut [u32], held: Option<OpenAsk>, reply: &[u8]) -> Taken
    ensures { outcome result (log_and_rows log.new figures.new)
        ≡ taken (log_and_rows log.old figures.old) held reply.now }
{
    let decided = decided(log, figures, held, reply);
    energy_log::apply(log, decided.change);
    decided.answered
}

// What the reply comes to, check after check. The log is only read.
#[tactic(auto, unfolding(crate::specs::Take::decided))]
fn decided(log: &[u8], figures: &mut [u32], held: Option<OpenAsk>, reply: &[u8]) -> Decision
    ensures { outcome result figures.new
        ≡ decided (view_of log.now) figures.old held reply.now }
{
    let Some(h) = log_header::sound(log) else {
        return Decided::stays(Err(TakeError::Unsound), held);
    };
    if figures.len() < day_rows::figures_of(h) {
        return Decided::stays(Err(TakeError::TooShort), held);
    }
    let Some(OpenAsk { address, day, slot }) = held else {
        return Decided::stays(Err(TakeError::NoAskOpen), held);
    };
    let Some(i) = log_header::interval_of(h, day, slot) else {
        return Decided::stays(Err(TakeError::NotInLog), held);
    };
    // Early, where the header still lies in registers.
    let twice = day_rows::comes_twice(h, day, slot);
    match reader::reply_of(address, code::READ, code::SLICE, layout::SLICE_REPLY, reply) {
        Err(ReplyError::Malformed(fault)) => Decided::stays(Err(TakeError::Malformed(fault)), held),
        Err(ReplyError::Refused(result)) => Decided::closes(
            Err(TakeError::MeterRefused(result)),
            Change::None,
        ),
        Ok(()) => {
            let row = wire_values::row_at(reply, layout::DATA);
            into_cell(log, figures, twice, held, day, i, row)
        }
    }
}

// What a well-formed reply with result 0 comes to: the cell, its update and its day's figures.
fn into_cell(
    log: &[u8],
    figures: &mut [u32],
    twice: bool,
    held: Option<OpenAsk>,
    day: u8,
    i: usize,
    row: Row,
) -> Decision
    ensures { outcome result figures.new ≡ if_good (cell_at log.now i) (outcome (stays (Err Unsound) held) figures.old)
        (λ c. updated (update_of c row) twice held day i c figures.old) }
{
    match energy_log::cell_at(log, i) {
        Some(cell) => updated(update_of(cell, row), figures, twice, held, day, i, cell),
        None => Decided::stays(Err(TakeError::Unsound), held),
    }
}

// A cell is put where its day's figures can follow.
#[tactic(auto, unfolding(crate::specs::Take::updated, crate::specs::Take::put_with))]
fn updated(
    update: Update,
    figures: &mut [u32],
    twice: bool,
    held: Option<OpenAsk>,
    day: u8,
    i: usize,
    old: Cell,
) -> Decision
    ensures { outcome result figures.new ≡ updated update twice held day i old figures.old }
{
    match update {
        Update::Put(new) => match day_rows::change(figures, day, twice, old, new) {
            Ok(()) => Decided::closes(Ok(()), Change::Put(i, new)),
            Err(FigureError::Unfit) => Decided::stays(Err(TakeError::Unsound), held),
        },
        Update::Keep => Decided::closes(Ok(()), Change::None),
        Update::Conflict => Decided::closes(Err(TakeError::OtherCounts), Change::None),
    }
}

#[tactic(auto, unfolding(crate::specs::Take::update_of))]
fn update_of(cell: Cell, row: Row) -> Update
    ensures { result ≡ update_of cell row }
{
    match cell {
        Cell::Gap | Cell::Empty => filled_with(row),
        Cell::Measured(e_plus, e_minus, r_plus, r_minus) => {
            compared_with(wire_values::row_of(e_plus, e_minus, r_plus, r_minus), row)
        }
    }
}

// A cell without counts takes what came.
fn filled_with(row: Row) -> Update
    ensures { result ≡ filled row }
{
    if row.is_zero() {
        Update::Put(Cell::Empty)
    } else {
        Update::Put(Cell::Measured(row.e_plus, row.e_minus, row.r_plus, row.r_minus))
    }
}

// A measured cell stays as it is: late zeros and the same counts again agree with it, others do not.
fn compared_with(held: Row, row: Row) -> Update
    ensures { result ≡ compared held row }
{
    if row.is_zero() || held.is_like(row) {
        Update::Keep
    } else {
        Update::Conflict
    }
}
