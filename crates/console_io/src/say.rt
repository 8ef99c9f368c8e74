// Answers, on standard output, and words about them on standard error.
// What cannot be written is left out.
pub fn put(rt: HostRuntime, bytes: &[u8]) {
    let _ = rt.stdout().write_all(bytes);
}

fn tell(rt: HostRuntime, bytes: &[u8]) {
    let _ = rt.stderr().write_all(bytes);
}

pub fn unread(rt: HostRuntime) {
    failed(rt);
    if crate::typed::is_typed(rt) {
        tell(rt, b"not read: help prints the lines\n");
    }
}

// A file could not be read or written: whoever tried it says why.
pub fn failed(rt: HostRuntime) {
    put(rt, b"?\n");
}

// A call's number, alone on its line.
pub fn number_line(rt: HostRuntime, n: u8) {
    first(rt, n);
    end_of(rt, n);
}

// A call's number and the bytes that it gave, where there are any.
pub fn bytes_line(rt: HostRuntime, n: u8, bytes: &[u8]) {
    first(rt, n);
    if !bytes.is_empty() {
        hex(rt, bytes);
    }
    end_of(rt, n);
}

// A call's number, as the first word.
pub fn first(rt: HostRuntime, n: u8) {
    let _ = rt.stdout().print(u64::from(n));
}

pub fn end(rt: HostRuntime) {
    put(rt, b"\n");
}

// Ends the answer of a call with this number. Whoever types is told what a refusal means.
pub fn end_of(rt: HostRuntime, n: u8) {
    end(rt);
    if n != refusal::DONE && crate::typed::is_typed(rt) {
        refused(rt, n);
    }
}

// A refusal's number and its words, to standard error.
pub fn refused(rt: HostRuntime, n: u8) {
    let mut words = [0u8; refusal_words::WORDS_MOST];
    let length = refusal_words::put_words(n, &mut words);
    tell(rt, b"refused ");
    let _ = rt.stderr().print(u64::from(n));
    tell(rt, b": ");
    tell(rt, console::part(&words, length));
    tell(rt, b"\n");
}

pub fn number(rt: HostRuntime, n: u64) {
    put(rt, b" ");
    let _ = rt.stdout().print(n);
}

pub fn short(rt: HostRuntime, n: u16) {
    number(rt, u64::from(n));
}

// The digits of at most 64 bytes, as many as a frame has.
pub fn hex(rt: HostRuntime, bytes: &[u8]) {
    let mut digits = [0u8; 128];
    text::put_hex(&mut digits, 0, bytes);
    if bytes.len() <= 64 {
        let n = 2 * bytes.len();
        put(rt, b" ");
        put(rt, console::part(&digits, n));
    }
}

// A float as the eight digits of its bits.
pub fn float(rt: HostRuntime, x: f32) {
    float_bits(rt, wire_values::bits_of(x));
}

pub fn float_bits(rt: HostRuntime, bits: u32) {
    hex(rt, &bits.to_be_bytes());
}

pub fn six_bytes(rt: HostRuntime, bytes: [u8; 6]) {
    for byte in bytes {
        number(rt, u64::from(byte));
    }
}

pub fn four_counts(rt: HostRuntime, a: u16, b: u16, c: u16, d: u16) {
    for count in [a, b, c, d] {
        short(rt, count);
    }
}
