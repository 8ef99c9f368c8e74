// The answers of the lines about the Mercury 206, on standard output.
use crate::answer::Answer;
use console_io::say;
use mercury::{DecodeError, Decoded, Frequency, Load, Tariffs};
use refusal::Numbered;

// What a line came to, with the output that it was lent.
pub fn print(rt: HostRuntime, answer: Answer, out: &[u8]) {
    match answer {
        Answer::Unread => say::unread(rt),
        Answer::Number(n) => say::number_line(rt, n),
        Answer::Frame(n, length) => say::bytes_line(rt, n, console::part(out, length)),
        Answer::Told(d) => decoded(rt, d),
    }
}

fn decoded(rt: HostRuntime, d: Result<Decoded, DecodeError>) {
    let number = d.number();
    say::first(rt, number);
    match d {
        Ok(Decoded::Tariffs(t)) => tariffs(rt, t),
        Ok(Decoded::Load(l)) => load(rt, l),
        Ok(Decoded::Frequency(f)) => frequency(rt, f),
        Err(_) => {}
    }
    say::end_of(rt, number);
}

fn tariffs(rt: HostRuntime, t: Tariffs) {
    for energy in [t.first, t.second, t.third, t.fourth] {
        say::number(rt, u64::from(energy.0));
    }
}

fn load(rt: HostRuntime, l: Load) {
    say::short(rt, l.voltage.0);
    say::short(rt, l.current.0);
    say::number(rt, u64::from(l.power.0));
}

// The seven bytes behind the frequency as one word.
fn frequency(rt: HostRuntime, f: Frequency) {
    let r = f.rest;
    say::short(rt, f.frequency.0);
    say::hex(rt, &[r.0, r.1, r.2, r.3, r.4, r.5, r.6]);
}
