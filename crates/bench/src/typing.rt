// The next line, for scripts and for people: where a person types, there is a prompt on standard error.
use console_io::{Rest, Taken};
use std::io;

pub fn greet(rt: HostRuntime) {
    tell(
        rt,
        b"bench: help prints the lines with their answers, quit ends\n",
    );
}

// The line `quit` ends the input.
pub fn next_call(
    rt: HostRuntime,
    block: &mut [u8],
    rest: Rest,
    line: &mut [u8],
) -> io::Result<Taken> {
    prompt(rt, rest);
    let taken = console_io::next_line(&mut rt.stdin(), block, rest, line)?;
    if taken.ended {
        // What comes next on the terminal begins on a line of its own.
        tell(rt, b"\n");
        return Ok(taken);
    }
    if is_quit(console::part(line, taken.length)) {
        return Ok(Taken {
            ended: true,
            ..taken
        });
    }
    Ok(taken)
}

fn is_quit(line: &[u8]) -> bool {
    console::place_of(line, b"quit") == 0
}

// Only where another read has to be waited for.
fn prompt(rt: HostRuntime, rest: Rest) {
    if rest.end <= rest.at {
        tell(rt, b"bench> ");
    }
}

fn tell(rt: HostRuntime, bytes: &[u8]) {
    if console_io::is_typed(rt) {
        let _ = rt.stderr().write_all(bytes);
    }
}
