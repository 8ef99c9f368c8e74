// The text of a lock.
ghost use Rattle.std.specs.Prelude.{◌≡◌};
ghost use Rattle.byte_numbers.specs.Place.{written};
ghost use Rattle.paths_and_locks.specs.Lock.{holder_text, after_spaces, up_to, process_of, holder_of};

const NEWLINE: u8 = b'\n';

const SPACE: u8 = b' ';

// The largest process number, in the system's 32 bits with a sign.
const LARGEST: u64 = 2147483647;

// Ten bytes with the number's digits at their end, and a newline.
pub fn put_holder(out: &mut [u8], pid: u32)
    ensures { out.new ≡ written out.old 0 (holder_text pid) }
{
    let n = pid as u64;
    let digits = text::decimal_length(n);
    let pad = byte_numbers::tail(b"          ", digits);
    let from = pad.len();
    byte_numbers::put_bytes(out, 0, pad);
    text::put_decimal(out, from, n);
    byte_numbers::put_byte(out, from + digits, NEWLINE);
}

fn after_spaces(s: &[u8]) -> &[u8]
    ensures { result.now ≡ after_spaces s.now }
{
    match s.iter().position(|b| *b != SPACE) {
        Some(n) => &s[n..],
        None => &[],
    }
}

// What stands before a byte.
#[tactic(auto, unfolding(crate::specs::Lock::up_to))]
fn up_to(s: &[u8], byte: u8) -> &[u8]
    ensures { result.now ≡ up_to byte s.now }
{
    &s[..text::index_of(s, byte)]
}

#[tactic(auto, unfolding(crate::specs::Lock::process_of))]
fn process_of(n: u64) -> Option<u32>
    ensures { result ≡ process_of n }
{
    if (1..=LARGEST).contains(&n) {
        Some(n as u32)
    } else {
        None
    }
}

// The process that a lock's text names. Programs differ in what they put before and behind the number: spaces before it are passed
// over, and so is what follows a space or the line's end.
#[tactic(auto, unfolding(crate::specs::Lock::holder_of, crate::specs::Lock::holder_in))]
pub fn holder_of(bytes: &[u8]) -> Option<u32>
    ensures { result ≡ holder_of bytes.now }
{
    let line = up_to(after_spaces(bytes), NEWLINE);
    process_of(text::number_of(up_to(line, SPACE))?)
}
