// The asks of the days, one after the other. Whatever the line carries, the log, its figures and the open ask go on by the logger's calls
// alone, so that demand 3 says what stands in every cell.
ghost use Rattle.std.specs.Prelude.{◌≡◌};
ghost use Rattle.refusal.specs.Outcome.{outcome};
ghost use Rattle.day_rows.specs.LogAndRows.{log_and_rows};
ghost use Rattle.logger.specs.Run.{state};
ghost use Rattle.polling.specs.Fate.{ask_settled};
ghost use Rattle.polling.specs.Reached.{Reached, Polled};

use crate::saving;
use crate::saving::{SaveError, Way};
use frame::layout::{READ_BYTES, SLICE_REPLY};
use log_header::Header;
use logger::OpenAsk;
use paths_and_locks::front;
use poll_line::{REPLY_ROOM, Wire};
use poll_words::say;
use polling::{Fate, Faults, Order, Passed, Settled, Standing, Tally, Wanted};
use refusal::Numbered;

// What is asked for: of this log's intervals those that are wanted and over at a moment, in an order.
#[derive(Clone, Copy)]
pub struct Plan {
    pub header: Header,
    // The meter's clock, in minutes since 2000.
    pub now: u32,
    pub wanted: Wanted,
    pub order: Order,
}

#[derive(Clone, Copy, PartialEq, Eq)]
pub enum End {
    GoesOn,
    // Early, and that is said; what was taken is saved.
    Stopped,
    // That is said.
    NotSaved,
}

// Where the poll stands: what became of its asks, which intervals were passed over, whether it has ended early, and the ask that is open:
// between two asks none, and one where the poll ends with it.
#[derive(Clone, Copy)]
pub struct Course {
    pub tally: Tally,
    pub passed: Passed,
    pub end: End,
    pub held: Option<OpenAsk>,
}

// The days from one on and before another.
#[derive(Clone, Copy)]
pub struct Span {
    pub from: u8,
    pub end: u8,
}

// What a poll works on: the line, the name of the log's file, and what is asked for.
// The log and its figures are lent beside it, each by itself, as the libraries take them and the contracts name them.
#[derive(Drop)]
pub struct Job<'a> {
    pub wire: Wire<'a>,
    pub path: &'a [u8],
    pub plan: Plan,
}

// Asks for the wanted intervals of the span's days.
pub fn poll(job: &Job, image: &mut [u8], figures: &mut [u32], span: Span) -> Course
    ensures { Polled (log_and_rows image.old figures.old) (log_and_rows image.new figures.new) }
{
    let mut course = nothing(None);
    for turn in span.from..span.end {
        let day = polling::day_in_order(job.plan.order, span.from, span.end, turn);
        course = job.one_day(image, figures, day, course);
        if course.end != End::GoesOn {
            return course;
        }
    }
    course
}

impl Job<'_> {
    // One more day behind the earlier ones.
    fn one_day(&self, image: &mut [u8], figures: &mut [u32], day: u8, earlier: Course) -> Course
        ensures { Reached (state (log_and_rows image.old figures.old) earlier.held)
            (state (log_and_rows image.new figures.new) result.held) }
    {
        let after = self.asks(image, figures, day, earlier.held);
        let course = self.kept(image, after);
        let wire = &self.wire;
        say::day(wire.rt, wire.terminal, day, course.tally, course.passed);
        holding(behind(earlier, course), after.held)
    }

    // A day whose asks have left the log as it was: its file is not touched.
    fn kept(&self, image: &[u8], after: Course) -> Course {
        if !changes(after.tally) || self.saved(image) {
            return after;
        }
        ends(after, End::NotSaved)
    }

    fn saved(&self, image: &[u8]) -> bool {
        let rt = self.wire.rt;
        let Err(error) = saving::saved(rt, Way::InItsPlace, self.path, image) else {
            return true;
        };
        say::new_line(rt, self.wire.terminal);
        match error {
            SaveError::Refused(number) => say::refused(rt, self.path, number),
            SaveError::Failed(why) => {
                say::not_saved(rt, self.path, why);
                false
            }
        }
    }

    fn asks(&self, image: &mut [u8], figures: &mut [u32], day: u8, held: Option<OpenAsk>) -> Course
        ensures { Reached (state (log_and_rows image.old figures.old) held)
            (state (log_and_rows image.new figures.new) result.held) }
    {
        let plan = self.plan;
        let mut course = nothing(held);
        let mut passed = 0;
        while let Some(slot) = polling::next_in_order(image, day, passed, plan.wanted, plan.order) {
            course = self.one_slot(image, figures, day, slot, course);
            if course.end != End::GoesOn {
                return course;
            }
            passed = polling::passed_with(plan.order, slot);
        }
        course
    }

    // An interval that is not over, or that another year's could answer for, is not asked for.
    fn one_slot(
        &self,
        image: &mut [u8],
        figures: &mut [u32],
        day: u8,
        slot: u8,
        earlier: Course,
    ) -> Course
        ensures { Reached (state (log_and_rows image.old figures.old) earlier.held)
            (state (log_and_rows image.new figures.new) result.held) }
    {
        match polling::standing_of(self.plan.header, day, slot, self.plan.now) {
            Standing::Due => self.one_ask(image, figures, day, slot, earlier),
            standing => passed_over(earlier, standing),
        }
    }

    fn one_ask(
        &self,
        image: &mut [u8],
        figures: &mut [u32],
        day: u8,
        slot: u8,
        earlier: Course,
    ) -> Course
        ensures { Reached (state (log_and_rows image.old figures.old) earlier.held)
            (state (log_and_rows image.new figures.new) result.held) }
    {
        let wire = &self.wire;
        say::slot(
            wire.rt,
            wire.terminal,
            day,
            slot,
            earlier.tally,
            earlier.passed,
        );
        let mut frame = [0u8; READ_BYTES];
        let asked = logger::put_ask(image, earlier.held, wire.address, day, slot, &mut frame);
        if asked.answer.is_err() {
            let course = self.refused(earlier, asked.answer.number());
            return holding(course, asked.held);
        }
        self.exchanged(image, figures, &frame, asked.held, earlier)
    }

    // Sends the open ask's frame, and settles the ask by what is heard then. A device that fails is not the meter's silence: the poll ends
    // with the ask open, and nothing is counted.
    fn exchanged(
        &self,
        image: &mut [u8],
        figures: &mut [u32],
        frame: &[u8],
        held: Option<OpenAsk>,
        earlier: Course,
    ) -> Course
        ensures { Reached (state (log_and_rows image.old figures.old) held)
            (state (log_and_rows image.new figures.new) result.held) }
    {
        let mut reply = [0u8; REPLY_ROOM];
        let Some(n) = poll_line::exchange(&self.wire, frame, SLICE_REPLY, &mut reply) else {
            return holding(ends(earlier, End::Stopped), held);
        };
        self.heard(image, figures, front(&reply, n), held, earlier)
    }

    // What was heard for the open ask, which no bytes are where the meter was silent.
    fn heard(
        &self,
        image: &mut [u8],
        figures: &mut [u32],
        reply: &[u8],
        held: Option<OpenAsk>,
        earlier: Course,
    ) -> Course
        ensures { Reached (state (log_and_rows image.old figures.old) held)
            (state (log_and_rows image.new figures.new) result.held) }
    {
        let after = ask_settled(image, figures, held, reply);
        let course = self.followed(after.fate, counted(earlier, after.fate));
        holding(course, after.held)
    }

    // What an ask's fate leads to.
    fn followed(&self, fate: Fate, course: Course) -> Course {
        match fate {
            Fate::Taken | Fate::Refused => course,
            Fate::Silent | Fate::Malformed(_) => self.after_a_loss(course),
            Fate::Stopped(number) => self.refused(course, number),
        }
    }

    fn after_a_loss(&self, course: Course) -> Course {
        if poll_line::silent_again(&self.wire) {
            return course;
        }
        ends(course, End::Stopped)
    }

    // The poll ends, and that the log refused is said.
    fn refused(&self, course: Course, number: u8) -> Course {
        say::new_line(self.wire.rt, self.wire.terminal);
        say::refused(self.wire.rt, self.path, number);
        ends(course, End::Stopped)
    }
}

// A day's course behind those of the days before it.
fn behind(earlier: Course, course: Course) -> Course {
    Course {
        tally: polling::together(earlier.tally, course.tally),
        passed: polling::passed_together(earlier.passed, course.passed),
        ..course
    }
}

// Whether asks have changed the log: a reply was taken, or an ask lapsed, with no answer or after one that was not well formed. A
// refusal by the meter does neither.
fn changes(tally: Tally) -> bool {
    tally.taken != 0 || tally.silent != 0 || has_faults(tally.faults)
}

fn has_faults(faults: Faults) -> bool {
    faults.length != 0
        || faults.crc != 0
        || faults.address != 0
        || faults.function != 0
        || faults.parameter != 0
}

// What was heard is taken, and the ask lapses where it is still open: one history of the logger's calls, which the equation names.
fn ask_settled(
    image: &mut [u8],
    figures: &mut [u32],
    held: Option<OpenAsk>,
    reply: &[u8],
) -> Settled
    ensures figures_after { outcome result (log_and_rows image.new figures.new)
        ≡ ask_settled (log_and_rows image.old figures.old) held reply.now }
    ensures reached { Reached (state (log_and_rows image.old figures.old) held)
        (state (log_and_rows image.new figures.new) result.held) }
{
    polling::settle(image, figures, held, reply)
}

// The same course, with the ask that is open now.
fn holding(course: Course, held: Option<OpenAsk>) -> Course
    ensures { result.held ≡ held }
{
    Course { held, ..course }
}

fn nothing(held: Option<OpenAsk>) -> Course
    ensures { result.held ≡ held }
{
    Course {
        tally: Tally {
            taken: 0,
            silent: 0,
            faults: Faults {
                length: 0,
                crc: 0,
                address: 0,
                function: 0,
                parameter: 0,
            },
            refused: 0,
        },
        passed: Passed {
            not_over: 0,
            too_old: 0,
        },
        end: End::GoesOn,
        held,
    }
}

fn counted(earlier: Course, fate: Fate) -> Course {
    Course {
        tally: polling::counted(earlier.tally, fate),
        ..earlier
    }
}

fn passed_over(earlier: Course, standing: Standing) -> Course
    ensures { result.held ≡ earlier.held }
{
    Course {
        passed: polling::passed_over(earlier.passed, standing),
        ..earlier
    }
}

fn ends(course: Course, end: End) -> Course {
    Course { end, ..course }
}
