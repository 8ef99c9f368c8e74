// `poll mercury DEVICE ADDRESS`: the three readings of a Mercury 206, in units that a person reads. They enter no log.
use crate::locks::Kind;
use crate::{arguments, locks, reading};
use file_io::PATH_ROOM;
use mercury::command;
use paths_and_locks::front;
use poll_line::{Ask, REPLY_ROOM, Wire};
use poll_words::say;
use std::io::IsTerminal;

// Whether all went well; where not, what did not is said.
pub fn read(rt: HostRuntime) -> bool {
    let mut room = [0u8; PATH_ROOM];
    let device = file_io::word(rt, arguments::MERCURY_DEVICE, &mut room);
    match arguments::long_argument(rt, arguments::MERCURY_ADDRESS) {
        Some(address) => on_line(rt, device, address),
        None => say::wrong_mercury(rt),
    }
}

fn on_line(rt: HostRuntime, device: &[u8], address: u32) -> bool {
    let mut lock = [0u8; PATH_ROOM];
    let Some(n) = locks::take(rt, Kind::Line, device, &mut lock) else {
        return false;
    };
    let well = on_device(rt, device, address);
    locks::left(rt, front(&lock, n));
    well
}

// Nothing is written to what is no terminal line.
fn on_device(rt: HostRuntime, device: &[u8], address: u32) -> bool {
    match file_io::open_device(rt, device) {
        Ok(line) => {
            if !line.is_terminal() {
                return say::no_line(rt, device);
            }
            let wire = Wire {
                rt,
                device,
                line,
                address: 0,
                terminal: rt.stderr().is_terminal(),
                refuses: false,
            };
            say::asking_mercury(rt, device, address);
            readings(&wire, address)
        }
        Err(why) => say::failed(rt, device, why),
    }
}

fn readings(wire: &Wire, address: u32) -> bool {
    one(wire, address, command::TARIFFS)
        && one(wire, address, command::LOAD)
        && one(wire, address, command::FREQUENCY)
}

fn one(wire: &Wire, address: u32, code: u8) -> bool {
    let mut reply = [0u8; REPLY_ROOM];
    match poll_line::asked(wire, Ask::Mercury(address, code), &mut reply) {
        Some(0) => say::silent_mercury(wire.rt, wire.device, address),
        Some(n) => reading::show(
            wire.rt,
            wire.device,
            mercury::decode(address, code, front(&reply, n)),
        ),
        None => false,
    }
}
