// The console: a line of standard input is a call, and its answer a line of standard output.
#![tactic(auto)]

mod files;
mod help;
mod typing;
mod verb;

ghost use Rattle.std.specs.Prelude.{◌≡◌, cond, eqb, leb};
ghost use Rattle.refusal.specs.Outcome.{outcome};
ghost use Rattle.console_meter.specs.Lines.{meter_after};
ghost use Rattle.console_mercury.specs.Lines.{mercury_after};

use console_io::Rest;
use console_log::ConsoleLog;
use frame::layout::LONGEST;
use logger::OpenAsk;
use mercury_bench::Meter;
use meter_record::Record;
use parameters::code::Reading;
use std::io;

// The program's own name.
const ITS_WORDS: usize = 1;

fn main(rt: HostRuntime) -> io::Result<()> {
    if ITS_WORDS < file_io::word_count(rt) {
        help::say(rt);
        return Ok(());
    }
    begin(rt)
}

fn begin(rt: HostRuntime) -> io::Result<()> {
    // The longest image and its figures, the meter's 2,976 places for slices, all unused, the longest line, and a block of the input.
    let mut image = [0u8; log_header::IMAGE_MOST];
    let mut figures = [0u32; day_rows::FIGURES_MOST];
    let mut store = [0u8; 32736];
    let mut line = [0u8; console_io::LINE_ROOM];
    let mut block = [0u8; 4096];
    let Ok(record) = console_meter::first() else {
        return Ok(());
    };
    typing::greet(rt);
    session(
        rt,
        &mut image,
        &mut figures,
        &mut store,
        &mut line,
        &mut block,
        record,
    )
}

fn session(
    rt: HostRuntime,
    image: &mut [u8],
    figures: &mut [u32],
    store: &mut [u8],
    line: &mut [u8],
    block: &mut [u8],
    first: Record,
) -> io::Result<()> {
    let mut kept = ConsoleLog {
        length: 0,
        held: None,
    };
    let mut record = first;
    let mut mercury = console_mercury::first();
    let mut rest = Rest { at: 0, end: 0 };
    // Nothing says that the input ends: this many lines no run has.
    for _ in 0..u64::MAX {
        let taken = typing::next_call(rt, block, rest, line)?;
        if taken.ended {
            return Ok(());
        }
        rest = taken.rest;
        let call = console::part(line, taken.length);
        let verb = verb::verb_of(call);
        // A verb is the log's or one of the two meters': the others leave all as it stands.
        kept = on_log(rt, verb, call, image, figures, kept);
        record = on_meter(rt, verb, call, store, record);
        mercury = on_mercury(rt, verb, call, mercury);
    }
    Ok(())
}

fn on_log(
    rt: HostRuntime,
    verb: usize,
    line: &[u8],
    image: &mut [u8],
    figures: &mut [u32],
    kept: ConsoleLog,
) -> ConsoleLog {
    match verb {
        verb::LOG => console_log::fresh(rt, line, image, figures, kept),
        verb::LOAD => files::load(rt, line, image, figures, kept),
        verb::ASK => console_log::ask(rt, line, image, kept),
        verb::LAPSE => console_log::lapse(rt, line, image, kept),
        verb::REPLY => console_log::reply(rt, line, image, figures, kept),
        _ => {
            let log = console::part(image, kept.length);
            read(rt, verb, line, log, figures, kept.held);
            kept
        }
    }
}

// What changes neither the log, nor its figures, nor the open ask.
fn read(
    rt: HostRuntime,
    verb: usize,
    line: &[u8],
    image: &[u8],
    figures: &[u32],
    held: Option<OpenAsk>,
) {
    match verb {
        verb::SAVE => files::save(rt, line, image),
        verb::OPEN => console_log::open_ask(rt, line, held),
        verb::CELL => console_log::cell(rt, line, image),
        verb::REPORT => console_log::report(rt, line, image, figures),
        verb::REQUEST => console_log::request(rt, Reading::Stored, line),
        verb::DECODE => console_log::decode(rt, Reading::Stored, line),
        verb::REQUEST_DISPLAYED => console_log::request(rt, Reading::Displayed, line),
        verb::DECODE_DISPLAYED => console_log::decode(rt, Reading::Displayed, line),
        verb::HELP => help::asked(rt, line),
        _ => {}
    }
}

// Record and store are those that the line's call leaves.
#[tactic(auto, unfolding(console_meter::specs::Lines::meter_after))]
fn on_meter(rt: HostRuntime, verb: usize, line: &[u8], store: &mut [u8], r: Record) -> Record
    ensures { outcome result store.new
        ≡ cond (leb verb 15) (outcome r store.old) (meter_after r line.now store.old) }
{
    if verb <= verb::MERCURY {
        return r;
    }
    let mut out = [0u8; LONGEST];
    let called = console_meter::called(line, store, r, &mut out);
    console_meter::print(rt, called, &out);
    called.after
}

fn on_mercury(rt: HostRuntime, verb: usize, line: &[u8], m: Meter) -> Meter
    ensures { result ≡ cond (eqb verb 15) (mercury_after m line.now) m }
{
    if verb != verb::MERCURY {
        return m;
    }
    mercury_called(rt, line, m)
}

#[tactic(auto, unfolding(console_mercury::specs::Lines::mercury_after))]
fn mercury_called(rt: HostRuntime, line: &[u8], m: Meter) -> Meter
    ensures { result ≡ mercury_after m line.now }
{
    let mut out = [0u8; LONGEST];
    let called = console_mercury::called(line, m, &mut out);
    console_mercury::print(rt, called.answer, &out);
    called.after
}
