// A line's form: the names that begin a line, and the numbers that follow.
ghost use Rattle.std.specs.Prelude.{◌≡◌};
ghost use Rattle.console.specs.Form.{place_of, is_up_to, are_numbers, is_form, byte_in, short_in, long_in, year_of};

use crate::line::{spaces, word};
use crate::value::{byte_word, long_word, number_word, short_word};

// Which of the words of a list of names a word is, counted from 0; the list's length, past all of them, where it is none.
pub fn place_of(w: &[u8], names: &[u8]) -> usize
    ensures { result ≡ place_of w.now names.now }
{
    for k in 0..=spaces(names) {
        if word(names, k) == w {
            return k;
        }
    }
    names.len()
}

#[tactic(auto, unfolding(crate::specs::Form::is_up_to, crate::specs::Value::up_to))]
fn is_up_to(a: Option<u64>, most: u64) -> bool
    ensures { result ≡ is_up_to most a }
{
    matches!(a, Some(n) if n <= most)
}

// Whether the words behind a line's first are numbers, each up to the most of its place. What follows them is not looked at.
pub fn are_numbers(line: &[u8], most: &[u64]) -> bool
    ensures { result ≡ are_numbers line.now 1 most.now }
{
    for i in 0..most.len() {
        if !is_up_to(number_word(line, i + 1), most[i]) {
            return false;
        }
    }
    true
}

// Whether a line is its first word and these numbers, and no more.
#[tactic(auto, unfolding(crate::specs::Form::is_form))]
pub fn is_form(line: &[u8], most: &[u64]) -> bool
    ensures { result ≡ is_form line.now most.now }
{
    spaces(line) == most.len() && are_numbers(line, most)
}

// The number of one byte that a word is: 0 where it is none.
#[tactic(auto, unfolding(crate::specs::Value::up_to))]
pub fn byte(line: &[u8], k: usize) -> u8
    ensures { result ≡ byte_in line.now k }
{
    byte_word(line, k).unwrap_or(0)
}

// Of 16 bits.
#[tactic(auto, unfolding(crate::specs::Value::up_to))]
pub fn short(line: &[u8], k: usize) -> u16
    ensures { result ≡ short_in line.now k }
{
    short_word(line, k).unwrap_or(0)
}

// Of 32 bits.
#[tactic(auto, unfolding(crate::specs::Value::up_to))]
pub fn long(line: &[u8], k: usize) -> u32
    ensures { result ≡ long_in line.now k }
{
    long_word(line, k).unwrap_or(0)
}

const FIRST_YEAR: u16 = 2000;

// The year that a word is, counted from 2000, where one byte holds it; which dates there are, the calls say.
#[tactic(auto, unfolding(crate::specs::Form::year_of))]
pub fn year(line: &[u8], k: usize) -> Option<u8>
    ensures { result ≡ year_of (short_in line.now k) }
{
    u8::try_from(short(line, k).checked_sub(FIRST_YEAR)?).ok()
}
