// Numbers of several bytes, lowest byte first, read from and written to any place of a byte slice.
//
// Every function is total: past the end a byte reads as 0 and nothing is stored. A lent part of a buffer (`&mut out[4..]`) is
// written through the same functions, and `proofs/Part.antt` says what the whole buffer then holds.
#![tactic(auto)]

ghost use Rattle.std.specs.Prelude.{◌≡◌, [], ◌∷◌, drop};
ghost use Rattle.byte_numbers.specs.Number.{bytes_of};
ghost use Rattle.byte_numbers.specs.Place.{byte_at, number_at, written};

pub fn byte_at(s: &[u8], at: usize) -> u8
    ensures { result ≡ byte_at s.now at }
{
    if at < s.len() { s[at] } else { 0 }
}

// A function for each width, of reading and of storing: each puts its halves together by its own type, and a caller names the width.
pub fn u16_at(s: &[u8], at: usize) -> u16
    ensures { result ≡ number_at s.now at 2 }
{
    if at < s.len() {
        let low = byte_at(s, at);
        let high = byte_at(s, at + 1);
        (high as u16) * 256 + (low as u16)
    } else {
        0
    }
}

pub fn u32_at(s: &[u8], at: usize) -> u32
    ensures { result ≡ number_at s.now at 4 }
{
    if at < s.len() {
        let low = u16_at(s, at);
        let high = u16_at(s, at + 2);
        (high as u32) * 65536 + (low as u32)
    } else {
        0
    }
}

pub fn u64_at(s: &[u8], at: usize) -> u64
    ensures { result ≡ number_at s.now at 8 }
{
    if at < s.len() {
        let low = u32_at(s, at);
        let high = u32_at(s, at + 4);
        (high as u64) * 4294967296 + (low as u64)
    } else {
        0
    }
}

// The part of a slice from a place on: nothing where that lies past the end.
pub fn tail(s: &[u8], at: usize) -> &[u8]
    ensures { result.now ≡ drop at s.now }
{
    if at < s.len() { &s[at..] } else { &[] }
}

pub fn put_byte(out: &mut [u8], at: usize, byte: u8)
    ensures { out.new ≡ written out.old at (byte ∷ []) }
{
    if at < out.len() {
        out[at] = byte;
    }
}

pub fn put_u16(out: &mut [u8], at: usize, n: u16)
    ensures { out.new ≡ written out.old at (bytes_of 2 n) }
{
    if at < out.len() {
        put_byte(out, at, (n % 256) as u8);
        put_byte(out, at + 1, (n / 256) as u8);
    }
}

pub fn put_u32(out: &mut [u8], at: usize, n: u32)
    ensures { out.new ≡ written out.old at (bytes_of 4 n) }
{
    if at < out.len() {
        put_u16(out, at, (n % 65536) as u16);
        put_u16(out, at + 2, (n / 65536) as u16);
    }
}

pub fn put_u64(out: &mut [u8], at: usize, n: u64)
    ensures { out.new ≡ written out.old at (bytes_of 8 n) }
{
    if at < out.len() {
        put_u32(out, at, (n % 4294967296) as u32);
        put_u32(out, at + 4, (n / 4294967296) as u32);
    }
}

// What of the items lies past the end of the buffer is not stored.
pub fn put_all<T: Copy>(out: &mut [T], at: usize, items: &[T])
    ensures { out.new ≡ written out.old at items.now }
{
    if at < out.len() {
        let n = items.len().min(out.len() - at);
        // Not by `copy_from_slice`: it compares addresses, which tools/build-for takes for no machine but this one.
        for i in 0..n {
            out[at + i] = items[i];
        }
    }
}

pub fn put_bytes(out: &mut [u8], at: usize, bytes: &[u8])
    ensures { out.new ≡ written out.old at bytes.now }
{
    put_all(out, at, bytes);
}
