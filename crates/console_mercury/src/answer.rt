// What a line about the Mercury 206 comes to.
use mercury::{DecodeError, Decoded};
use mercury_bench::Meter;

#[derive(Clone, Copy)]
pub enum Answer {
    // No line of the console's.
    Unread,
    // The number alone.
    Number(u8),
    // A number, and how many bytes of the output are the frame: none where there is none.
    Frame(u8, usize),
    // What a reply tells.
    Told(Result<Decoded, DecodeError>),
}

// The answer, and the bench's meter that stands after the line.
#[derive(Clone, Copy)]
pub struct Called {
    pub answer: Answer,
    pub after: Meter,
}
