// The lines that the program reads, with their answers: for whoever calls it with a word, and for the line `help`.
pub fn say(rt: HostRuntime) {
    put(
        rt,
        b"bench: reads lines from standard input and answers each with document 01's number.\n",
    );
    lines(rt);
}

// The line `help`.
pub fn asked(rt: HostRuntime, line: &[u8]) {
    if console::spaces(line) != 0 {
        console_io::say::unread(rt);
        return;
    }
    lines(rt);
}

fn lines(rt: HostRuntime) {
    log_lines(rt);
    reader_lines(rt);
    meter_lines(rt);
    meter_reads(rt);
    mercury_lines(rt);
    put(
        rt,
        b"\nhelp: these lines    quit: the end, as the input's own\n",
    );
    put(
        rt,
        b"Bytes are pairs of hex digits; a line that cannot be read is answered ?\n",
    );
    put(
        rt,
        b"Any other number than 0 is a refusal of the papers' table, alone on its line.\n",
    );
}

fn log_lines(rt: HostRuntime) {
    put(rt, b"\nThe log and the reader:\n");
    put(rt, b"    log YEAR MONTH DAY DAYS MINUTES KE SEASONS: 0\n");
    put(rt, b"    load PATH: 0; ? where the file cannot be read\n");
    put(
        rt,
        b"    save PATH: 0; ? where the file cannot be written\n",
    );
    put(rt, b"    ask ADDRESS DAY SLOT: 0 FRAME\n");
    put(rt, b"    lapse: 0\n");
    put(rt, b"    reply BYTES: 0; 24 RESULT; 50 LENGTH\n");
    put(rt, b"    open: 0 closed; 0 ADDRESS DAY SLOT\n");
    put(
        rt,
        b"    cell DAY SLOT: 0 gap LAPSES; 0 empty LAPSES; 0 measured E+ E- R+ R- LAPSES\n",
    );
    put(
        rt,
        b"    report DAY: 0 GAPS EMPTIES MEASURED E+ E- R+ R- DOUBLED\n",
    );
}

fn reader_lines(rt: HostRuntime) {
    put(
        rt,
        b"    request ADDRESS PARAMETER OFFSET TARIFF DETAIL: 0 FRAME\n",
    );
    put(
        rt,
        b"    decode ADDRESS PARAMETER OFFSET TARIFF DETAIL BYTES: 0 and the figures; 24 RESULT; 50 LENGTH\n",
    );
    put(
        rt,
        b"    request4, decode4: the same with function 4, as the display shows it\n",
    );
}

fn meter_lines(rt: HostRuntime) {
    put(rt, b"\nThe bench meter:\n");
    put(
        rt,
        b"    meter ADDRESS MINUTES K KE RESERVE YEAR MONTH DAY HOUR MINUTE SECOND SEASON: 0\n",
    );
    put(rt, b"    power PARAMETER A B C: 0\n");
    put(rt, b"    slice MONTH DAY NUMBER E+ E- R+ R-: 0\n");
    put(rt, b"    ratio KI KU: 0\n");
    put(rt, b"    second N: 0\n");
}

fn meter_reads(rt: HostRuntime) {
    put(
        rt,
        b"    frame BYTES: the number and the reply, of a refusal too; silence: the number alone\n",
    );
    put(
        rt,
        b"    record: 0 ADDRESS LEVEL SECONDS YEAR MONTH DAY HOUR MINUTE SECOND SEASON NEXT KI KU\n",
    );
    put(rt, b"    shown: 0 and six bytes\n");
    put(
        rt,
        b"    inquire ADDRESS PARAMETER OFFSET TARIFF DETAIL: as decode; 2 for silence\n",
    );
    put(rt, b"    inquire4: the same with function 4\n");
}

fn mercury_lines(rt: HostRuntime) {
    put(rt, b"\nThe Mercury 206:\n");
    put(
        rt,
        b"    mercury ADDRESS T1 T2 T3 T4 VOLTAGE CURRENT POWER FREQUENCY REST: 0\n",
    );
    put(
        rt,
        b"    mercury-frame BYTES: 0 and the reply; silence: 40 alone\n",
    );
    put(rt, b"    mercury-ask ADDRESS COMMAND: 0 FRAME\n");
    put(
        rt,
        b"    mercury-decode ADDRESS COMMAND BYTES: 0 and the figures\n",
    );
}

// What cannot be written is left out.
fn put(rt: HostRuntime, bytes: &[u8]) {
    let _ = rt.stdout().write_all(bytes);
}
