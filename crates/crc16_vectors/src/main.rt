// The CRC-16 over frames that the papers print with theirs. Each line has the bytes before the CRC
// and the CRC, low byte first; stdout was written by hand from the papers.
#![tactic(auto)]

// Writes a byte as two hex digits, and what stands after it.
fn put(rt: HostRuntime, byte: u8, after: u8) {
    let mut digits = [0, 0, after];
    text::put_hex(&mut digits, 0, &[byte]);
    let _ = rt.stdout().write_all(&digits);
}

// Writes a frame's bytes, each with a space after it.
fn put_all(rt: HostRuntime, frame: &[u8]) {
    for byte in frame {
        put(rt, *byte, b' ');
    }
}

// Writes a frame's bytes and its CRC on a line.
fn line(rt: HostRuntime, frame: &[u8]) {
    let [low, high] = crc16::crc16(frame).to_le_bytes();
    put_all(rt, frame);
    let _ = rt.stdout().write_all(b": ");
    put(rt, low, b' ');
    put(rt, high, b'\n');
}

fn main(rt: HostRuntime) {
    // Document 01, P1 to P4.
    line(rt, b"\x01\x66");
    line(rt, b"\x01\x03\x00\x04\x00\x06");
    line(rt, b"\x00\x00\x04\xD2\x27");
    line(rt, b"\x01\x03\x24\x05\x11\x00");
    // Source document 001, ECHO-R: the replies to P1 and P2.
    line(
        rt,
        b"\x01\x66\x12\x9A\x99\x99\x3E\x54\xDF\x4B\x3D\x6D\x00\x04\x00\x7A\x7C\x00\x00\x02\x00",
    );
    line(
        rt,
        b"\x01\x03\x0C\xE5\xC3\x04\x00\x17\x82\x00\x00\x18\xA4\x03\x0E",
    );
    // Source document 000, Mercury 206: the requests 63 and 81 hex, and the reply to the second.
    line(rt, b"\x00\x00\x04\xD2\x63");
    line(rt, b"\x00\x00\x04\xD2\x81");
    line(
        rt,
        b"\x00\x00\x04\xD2\x81\x50\x50\x3A\x00\x00\x00\x00\x00\x00",
    );
}
