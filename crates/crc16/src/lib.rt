// The Modbus serial line CRC-16, sixteen bytes at a time and with no table.
//
// Sixty-four bits stand for the register that 64 shifts leave of them. As a polynomial modulo 2, bit i of them is x^(63 - i), and a shift is
// a product with x modulo P = x^16 + x^15 + x^2 + 1, which is A001 hex with its bits turned round. P is (x + 1) Q, where Q is x^15 + x + 1.
// Modulo Q, x^60 is x^4 + 1, so x^64 is x^8 + x^4; and x^4 is x^19 + x^5. So modulo Q, x^64 is x^19 + x^8 + x^5; modulo x + 1 both are 1; and
// they are the same modulo P.
#![tactic(auto)]

ghost use Rattle.std.specs.Prelude.{◌≡◌, ◌≤◌, length};
ghost use Rattle.byte_numbers.specs.Number.{number, bytes_of};
ghost use Rattle.crc16.specs.Crc.{byte_step, crc_from, crc_of};
ghost use Rattle.crc16.specs.Word.{register, pair_register, by_x64, by_x128, out_of_x128, below_x30, below_x15};

// Stands for the register's start, FFFF hex.
const START: u64 = 0x0F14;

// The register's start itself.
const FIRST: u64 = 0xFFFF;

// Q as a register, whose bit i is x^(15 - i).
const Q: u32 = 0xC001;

// z x^64, as far as nothing falls out.
fn by_x64(z: u64) -> u64
    ensures { result ≡ by_x64 z }
{
    (z >> 19) ^ (z >> 8) ^ (z >> 5)
}

// One byte more: the eight bits that fall out are folded in, and the byte comes in above.
fn byte_more(a: u64, byte: u8) -> u64
    ensures { register result ≡ byte_step (register a) byte }
{
    (a >> 8) ^ by_x64(a << 56) ^ ((byte as u64) << 56)
}

// Four bytes more.
fn half_more(a: u64, half: u32) -> u64
    ensures { register result ≡ crc_from (register a) (bytes_of 4 half) }
{
    (a >> 32) ^ by_x64(a << 32) ^ ((half as u64) << 32)
}

// Eight bytes more: what falls out of a >> 19, a >> 8 and a >> 5 goes the same way as a.
fn word_more(a: u64, word: u64) -> u64
    ensures { register result ≡ crc_from (register a) (bytes_of 8 word) }
{
    by_x64(a ^ (a << 45) ^ (a << 56) ^ (a << 59)) ^ word
}

// Sixteen bytes as the first and the second of two words.
#[derive(Clone, Copy)]
struct Pair {
    first: u64,
    second: u64,
}

// z x^128, which is x^23 + x^16 + x^9 in the same way, as far as nothing falls out.
fn by_x128(z: u64) -> u64
    ensures { result ≡ by_x128 z }
{
    (z >> 23) ^ (z >> 16) ^ (z >> 9)
}

// What falls out of z x^128, which goes into the other word.
fn out_of_x128(z: u64) -> u64
    ensures { result ≡ out_of_x128 z }
{
    (z << 41) ^ (z << 48) ^ (z << 55)
}

// Sixteen bytes more: the two words go by x^128 as one number of 128 bits, and what falls out of the first comes into the second. Each word's shifts
// stand together: a shift of both at once is one instruction, and a slow one on some processors.
fn pair_more(p: Pair, first: u64, second: u64) -> Pair
    ensures { pair_register result.first result.second ≡ crc_from (crc_from (pair_register p.first p.second) (bytes_of 8 first)) (bytes_of 8 second) }
{
    Pair {
        first: by_x128(p.first) ^ out_of_x128(p.second) ^ first,
        second: by_x128(out_of_x128(p.first) ^ p.second) ^ second,
    }
}

// Modulo Q, x^30 is x^2 + 1.
fn below_x30(a: u64) -> u64
    ensures { result ≡ below_x30 a }
{
    let t = a << 30;
    ((a >> 34) << 34) ^ t ^ (t >> 2)
}

// Modulo Q, x^15 is x + 1.
fn below_x15(a: u64) -> u64
    ensures { result ≡ below_x15 a }
{
    let t = a << 15;
    ((a >> 49) << 49) ^ t ^ (t >> 1)
}

// The register itself, which is a x^16: first modulo Q, where x^16 is x^2 + x, and then modulo x + 1, where only the number of terms
// counts. Q has an odd number of them.
fn register_of(a: u64) -> u16
    ensures { result ≡ register a }
{
    let b = below_x30(a);
    let c = below_x15(below_x15((b >> 1) ^ (b >> 2)));
    (((c >> 48) as u32) ^ ((a ^ c).count_ones() % 2 * Q)) as u16
}

// Some bytes, one by one.
fn by_bytes(start: u64, bytes: &[u8]) -> u16
    ensures { result ≡ crc_from (register start) bytes.now }
{
    let mut a = start;
    for &byte in bytes {
        a = byte_more(a, byte);
    }
    register_of(a)
}

// The first four of them at once.
fn by_half(a: u64, bytes: &[u8]) -> u16
    ensures { result ≡ crc_from (register a) bytes.now }
{
    if bytes.len() < 4 {
        return by_bytes(a, bytes);
    }
    by_bytes(half_more(a, byte_numbers::u32_at(bytes, 0)), &bytes[4..])
}

// The first eight of them at once.
fn by_word(a: u64, bytes: &[u8]) -> u16
    ensures { result ≡ crc_from (register a) bytes.now }
{
    if bytes.len() < 8 {
        return by_half(a, bytes);
    }
    by_half(word_more(a, byte_numbers::u64_at(bytes, 0)), &bytes[8..])
}

// Sixteen bytes at a time behind the first eight, and then the rest.
fn by_pairs(bytes: &[u8]) -> u16
    requires { 8 ≤ length bytes.now }
    ensures { result ≡ crc_of bytes.now }
{
    let mut p = Pair {
        first: START,
        second: byte_numbers::u64_at(bytes, 0),
    };
    let (pairs, rest) = bytes[8..].as_chunks::<16>();
    for pair in pairs {
        p = pair_more(
            p,
            byte_numbers::u64_at(pair, 0),
            byte_numbers::u64_at(pair, 8),
        );
    }
    by_word(word_more(p.first, p.second), rest)
}

// The first n bytes of a word, after the register's start: it is xored into the first two of them, and zeros before them would leave a
// register of 0 as it is.
fn raised(word: u64, n: usize) -> u64
    requires { (2 ≤ n) × (n ≤ 8) }
    ensures { register result ≡ crc_of (bytes_of n word) }
{
    (word ^ FIRST) << (64 - 8 * n)
}

// Four to eight bytes as a number: the first four, and above them those of the last four that are not among the first.
fn few(bytes: &[u8]) -> u64
    requires { (4 ≤ length bytes.now) × (length bytes.now ≤ 8) }
    ensures { result ≡ number bytes.now }
{
    let n = bytes.len();
    let low = byte_numbers::u32_at(bytes, 0);
    let last = byte_numbers::u32_at(bytes, n - 4);
    ((last as u64) >> (64 - 8 * n) << 32) + (low as u64)
}

// Ten to fifteen bytes: those before the last eight, and the last eight.
fn two_words(bytes: &[u8]) -> u64
    requires { (10 ≤ length bytes.now) × (length bytes.now ≤ 16) }
    ensures { register result ≡ crc_of bytes.now }
{
    let n = bytes.len() - 8;
    word_more(
        raised(byte_numbers::u64_at(bytes, 0), n),
        byte_numbers::u64_at(bytes, n),
    )
}

// The CRC of a frame's bytes before it; its low byte travels first. Frames are short, so those of four to eight bytes and of ten to
// fifteen go by one word or two, without a loop.
pub fn crc16(bytes: &[u8]) -> u16
    ensures { result ≡ crc_of bytes.now }
{
    let n = bytes.len();
    if n < 4 {
        return by_bytes(START, bytes);
    }
    if n <= 8 {
        return register_of(raised(few(bytes), n));
    }
    if 10 <= n && n < 16 {
        return register_of(two_words(bytes));
    }
    by_pairs(bytes)
}
