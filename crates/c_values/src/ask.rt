// The open ask as four lent bytes: how firmware that cannot hold a Rattle value keeps it between calls.
//
// The first byte is 0 where none is open and 1 where one is; then come its address, its day and its slot. What was written reads back as
// it was. Bytes of another length, or with another first byte, are no ask.
ghost use Rattle.std.specs.Prelude.{◌≡◌};
ghost use Rattle.byte_numbers.specs.Place.{written};
ghost use Rattle.c_values.specs.Ask.{ask_bytes, ask_of};

use logger::OpenAsk;

pub const ASK_BYTES: usize = 4;

// The first byte.
const CLOSED: u8 = 0;

const OPEN: u8 = 1;

// The ask that is open, if one is; `None` where the bytes are no ask.
#[tactic(auto, unfolding(crate::specs::Ask::ask_of))]
pub fn ask_of(bytes: &[u8]) -> Option<Option<OpenAsk>>
    ensures { result ≡ ask_of bytes.now }
{
    match *bytes {
        [CLOSED, _, _, _] => Some(None),
        [OPEN, address, day, slot] => Some(Some(OpenAsk { address, day, slot })),
        _ => None,
    }
}

// As far as there is room.
#[tactic(auto, unfolding(crate::specs::Ask::ask_bytes))]
pub fn put_ask(out: &mut [u8], held: Option<OpenAsk>)
    ensures { out.new ≡ written out.old 0 (ask_bytes held) }
{
    let bytes: [u8; ASK_BYTES] = match held {
        None => [CLOSED, 0, 0, 0],
        Some(OpenAsk { address, day, slot }) => [OPEN, address, day, slot],
    };
    byte_numbers::put_bytes(out, 0, &bytes);
}
