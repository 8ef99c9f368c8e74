// The help text, on standard output.
pub fn show(rt: HostRuntime) {
    uses(rt);
    line(rt);
    limits(rt);
}

fn uses(rt: HostRuntime) {
    put(
        rt,
        b"poll DEVICE ADDRESS LOGFILE [DAY] [again] [anyway] [newest]\n",
    );
    put(
        rt,
        b"    asks the meter with this address (0 to 255) for every interval of the log that is still a gap and is over by the\n",
    );
    put(
        rt,
        b"    meter's clock: of one day, counted from 0, or of all. `again` asks for empty intervals too: a figure that came\n",
    );
    put(
        rt,
        b"    later fills them. The file is written anew after each day that changed; progress is shown on standard error, and\n",
    );
    put(
        rt,
        b"    the day report of what was polled goes to standard output. The last line says `poll: done` or `poll: failed`.\n",
    );
    put(
        rt,
        b"    First the meter is asked for its Ke, its interval and its clock. Another Ke or interval than the log's ends the poll,\n",
    );
    put(
        rt,
        b"    and so does a clock more than a day off this machine's, unless `anyway` is said. Intervals that ended 300 days\n",
    );
    put(
        rt,
        b"    before are not asked for: the wire names no year.\n",
    );
    put(
        rt,
        b"    `newest` asks for the newest interval first, in a day and over all days: the log is the same in the end.\n",
    );
    put(
        rt,
        b"    One poll at a time has a log (LOGFILE.lock) and a line (/var/lock/LCK..NAME).\n",
    );
    put(
        rt,
        b"poll new LOGFILE YEAR MONTH DAY DAYS MINUTES KE SEASONS\n",
    );
    put(
        rt,
        b"    makes the file of a fresh log, all gaps: 1 to 62 days from a date of 2000 to 2099 on, intervals of 15 or\n",
    );
    put(
        rt,
        b"    30 minutes, Ke milliwatt-hours a count (1 to 65535). SEASONS is 1 where the meter follows the automatic seasons, else 0:\n",
    );
    put(
        rt,
        b"    with 1 the hour from 02:00 on the last Sunday of March is not asked for. A file that is there is left as it is.\n",
    );
    put(rt, b"poll mercury DEVICE ADDRESS\n");
    put(
        rt,
        b"    reads the Mercury 206 with this number: energy by tariff, voltage, current, power and frequency. They enter no log.\n",
    );
    put(rt, b"\n");
}

fn line(rt: HostRuntime) {
    put(rt, b"DEVICE is a serial port, which is set before with\n");
    put(
        rt,
        b"    stty -F DEVICE 9600 raw -echo clocal min 0 time 1\n",
    );
    put(
        rt,
        b"at the meter's own speed. So a read waits a tenth of a second; without these settings it may wait for ever.\n",
    );
    put(
        rt,
        b"Ten silent reads are no answer: the interval stays a gap, and a later poll asks again, as it does after a\n",
    );
    put(
        rt,
        b"malformed reply or a refusal. The log counts for each interval the asks that had no answer or a malformed one.\n",
    );
    put(
        rt,
        b"Malformed replies are counted by what is wrong with them first: of the cable speak a wrong length and a wrong CRC,\n",
    );
    put(
        rt,
        b"of a setting another address, function or parameter than was asked for.\n",
    );
    put(rt, b"\n");
}

fn limits(rt: HostRuntime) {
    put(
        rt,
        b"A reply does not say which interval it is for. Before each ask the line is read until it is silent, for a tenth\n",
    );
    put(
        rt,
        b"of a second, and for a whole second after an ask that had no answer or a malformed one. A reply that comes\n",
    );
    put(rt, b"later still would be taken for the next ask's.\n");
}

// What cannot be written is left out.
fn put(rt: HostRuntime, bytes: &[u8]) {
    let _ = rt.stdout().write_all(bytes);
}
