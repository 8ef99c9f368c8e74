// What each number of document 01's refusal table, and of document 02's additions to it, says in their own words, for messages that a
// person reads.
#![tactic(auto)]

ghost use Rattle.std.specs.Prelude.{◌≡◌};
ghost use Rattle.refusal.specs.Outcome.{outcome};
ghost use Rattle.refusal_words.specs.Words.{words_of, log_words, reply_words, file_words, mercury_words, at_front};

// Room for the words of any number.
pub const WORDS_MOST: usize = 96;

// The words of a number to the front of out, whose rest stays as it was; what lies past its end is not stored. The answer is how many
// bytes the words have, stored or not.
#[tactic(auto, unfolding(crate::specs::Words::at_front))]
pub fn put_words(number: u8, out: &mut [u8]) -> usize
    ensures { outcome result out.new ≡ at_front (words_of number) out.old }
{
    let words = words_of(number);
    byte_numbers::put_bytes(out, 0, words);
    words.len()
}

// A function for each part of the table: one match over all of it would be too long to read at once.
#[tactic(auto, unfolding(text::specs::Ascii::ascii, crate::specs::Words::words_in, crate::specs::Words::words_of))]
fn words_of(number: u8) -> &'static [u8]
    ensures { result.now ≡ words_of number }
{
    match number {
        refusal::DONE => b"done",
        refusal::TOO_SHORT => b"lent output too short",
        refusal::SILENT => b"meter: length, CRC or address wrong",
        refusal::UNKNOWN_FUNCTION => b"unknown function",
        refusal::UNKNOWN_PARAMETER => b"unknown parameter",
        refusal::NOT_OPEN => b"parameter not open to this function",
        refusal::WRONG_LENGTH => b"length wrong for it",
        refusal::NO_ACCESS => b"level too low, or wrong password",
        refusal::WRONG_ARGUMENT => b"wrong argument",
        refusal::BY_ADDRESS_ZERO => b"change or zeroing by address 0",
        _ => log_words(number),
    }
}

// Those of the log, of the reader and of what a call is lent.
#[tactic(auto, unfolding(text::specs::Ascii::ascii, crate::specs::Words::words_in, crate::specs::Words::log_words))]
fn log_words(number: u8) -> &'static [u8]
    ensures { result.now ≡ log_words number }
{
    match number {
        refusal::NO_ASK_OPEN => b"no ask open",
        refusal::ASK_ALREADY_OPEN => b"ask already open",
        refusal::NOT_IN_LOG => b"interval or report day not in the log",
        refusal::METER_REFUSED => b"meter's result not 0",
        refusal::OTHER_COUNTS => b"other counts than those measured",
        refusal::NOT_FINITE => b"power reply with an infinity or no number",
        refusal::OUT_OF_RANGE => b"setting, new log's header or request out of range",
        refusal::UNSOUND =>
            b"log with a wrong header, length or cell, or meter record outside its ranges",
        _ => reply_words(number),
    }
}

// What is wrong with a reply that is not well formed.
#[tactic(auto, unfolding(text::specs::Ascii::ascii, crate::specs::Words::words_in, crate::specs::Words::reply_words))]
fn reply_words(number: u8) -> &'static [u8]
    ensures { result.now ≡ reply_words number }
{
    match number {
        refusal::REPLY_LENGTH => b"reply of a wrong length",
        refusal::REPLY_CRC => b"reply with a wrong CRC",
        refusal::REPLY_ADDRESS => b"reply of another address",
        refusal::REPLY_FUNCTION =>
            b"reply with another function, or a top bit that belies its result",
        refusal::REPLY_PARAMETER => b"reply about another parameter",
        _ => file_words(number),
    }
}

#[tactic(auto, unfolding(text::specs::Ascii::ascii, crate::specs::Words::words_in, crate::specs::Words::file_words))]
fn file_words(number: u8) -> &'static [u8]
    ensures { result.now ≡ file_words number }
{
    match number {
        refusal::FILE_MARK => b"the file's mark is wrong",
        refusal::FILE_VERSION => b"the file's version is wrong",
        refusal::FILE_HEADER => b"a header field of the file is wrong",
        refusal::FILE_LENGTH => b"the file's length is wrong",
        refusal::FILE_CRC => b"the file's CRC is wrong",
        refusal::FILE_CELL => b"a cell of the file is wrong",
        _ => mercury_words(number),
    }
}

#[tactic(auto, unfolding(text::specs::Ascii::ascii, crate::specs::Words::words_in, crate::specs::Words::mercury_words))]
fn mercury_words(number: u8) -> &'static [u8]
    ensures { result.now ≡ mercury_words number }
{
    match number {
        refusal::MERCURY_FORM => b"Mercury 206: length, CRC, address or command wrong",
        refusal::MERCURY_DIGIT => b"Mercury 206: a half-byte above 9",
        _ => b"no number of the table",
    }
}
