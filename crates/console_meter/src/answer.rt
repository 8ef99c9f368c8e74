// What a line of the bench meter comes to.
use meter_record::Record;
use meter_round_trip::InquiryError;
use reader::Decoded;

#[derive(Clone, Copy)]
pub enum Answer {
    // No line of the console's.
    Unread,
    // The number alone.
    Number(u8),
    // A frame's number, and how many bytes of the output are the reply: none where the meter is silent.
    Reply(u8, usize),
    // The record itself.
    Recorded,
    // What its display shows.
    Shown,
    // What the reader says of the meter's own reply, which stands in the output.
    Inquired(Result<Decoded, InquiryError>),
}

// The answer, and the record that stands after the line.
#[derive(Clone, Copy)]
pub struct Called {
    pub answer: Answer,
    pub after: Record,
}
