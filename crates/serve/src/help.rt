// What the program is called with.
pub fn say(rt: HostRuntime) {
    put(
        rt,
        b"serve DEVICE SCRIPT [COUNT]: the bench meter on a serial line.\n\n",
    );
    words(rt);
    put(
        rt,
        b"\nA frame is what one read of DEVICE gives, so let the line's own timer end it at a pause:\n\n",
    );
    put(rt, b"    stty -F DEVICE raw -echo min 64 time 1\n\n");
    put(
        rt,
        b"To try it, make a pair of lines; serve one end and send frames on the other:\n\n",
    );
    put(rt, b"    socat -d -d pty,raw,echo=0 pty,raw,echo=0\n");
}

fn words(rt: HostRuntime) {
    put(
        rt,
        b"DEVICE  the serial line, opened for reading and writing\n",
    );
    put(
        rt,
        b"SCRIPT  a file of the console's lines meter, power, slice, second, ratio and frame, which make the meter, or mercury,\n",
    );
    put(
        rt,
        b"        which makes it a Mercury 206; lines that only ask, empty lines and # lines are passed over; one that is\n",
    );
    put(rt, b"        refused or not read ends serve\n");
    put(
        rt,
        b"COUNT   how many frames are read at most; else serve goes on until DEVICE is closed\n\n",
    );
    put(
        rt,
        b"The SS-301's clock goes on with the wall clock; a Mercury 206's figures stay as they are.\n",
    );
}

// What cannot be written is left out.
fn put(rt: HostRuntime, bytes: &[u8]) {
    let _ = rt.stdout().write_all(bytes);
}
