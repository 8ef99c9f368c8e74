// Polls a meter on a serial line for the intervals of a log that are still gaps, makes the file of a fresh log, or reads a Mercury 206.
// What is asked, what a reply does to the log and what the report says are decided in the libraries.
#![tactic(auto)]

mod arguments;
mod fresh;
mod help;
mod locks;
mod mercury_meter;
mod meter;
mod reading;
mod report;
mod session;

use poll_words::say;

// The arguments of each form, the program's own name among them.
const NEW_WORDS: usize = 10;

const MERCURY_WORDS: usize = 4;

const LEAST_WORDS: usize = 4;

const MOST_WORDS: usize = 8;

fn main(rt: HostRuntime) {
    let count = file_io::word_count(rt);
    let is_new = arguments::is_new(rt);
    let is_mercury = arguments::is_mercury(rt);
    if is_new && count == NEW_WORDS {
        say::end(rt, fresh::make(rt));
    } else if is_mercury && count == MERCURY_WORDS {
        say::end(rt, mercury_meter::read(rt));
    } else if !is_new && !is_mercury && (LEAST_WORDS..=MOST_WORDS).contains(&count) {
        say::end(rt, session::poll(rt));
    } else {
        help::show(rt);
    }
}
