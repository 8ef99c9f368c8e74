// One loop that asks and tries again, for every meter.
use crate::wire;
use crate::wire::Wire;
use frame::layout::READ_BYTES;
use mercury::Command;
use mercury::layout::BARE_BYTES;
use paths_and_locks::front;
use polling::{Learned, Question};

// What is asked of which meter.
#[derive(Clone, Copy)]
pub enum Ask {
    // An SS-301, at the wire's address.
    Meter(Question),
    // A Mercury 206 by its number, with a command.
    Mercury(u32, u8),
}

const TRIES: u8 = 3;

// What was heard last: silence, and what is no answer, are a reason to ask again.
pub fn asked(wire: &Wire, ask: Ask, reply: &mut [u8]) -> Option<usize> {
    let mut heard = Some(0);
    for _ in 0..TRIES {
        heard = asked_once(wire, ask, reply);
        if is_settled(wire, ask, heard, reply) {
            return heard;
        }
        if !wire::silent_again(wire) {
            return None;
        }
    }
    heard
}

fn asked_once(wire: &Wire, ask: Ask, reply: &mut [u8]) -> Option<usize> {
    match ask {
        Ask::Meter(question) => {
            let mut frame = [0u8; READ_BYTES];
            let _ = polling::put_question(question, wire.address, &mut frame);
            wire::exchange(wire, &frame, polling::answer_bytes(question), reply)
        }
        Ask::Mercury(address, code) => {
            let mut frame = [0u8; BARE_BYTES];
            let _ = mercury::put_request(address, code, &mut frame);
            wire::exchange(wire, &frame, mercury_bytes(code), reply)
        }
    }
}

// How many bytes a Mercury 206's full reply has.
fn mercury_bytes(code: u8) -> usize {
    let n = Command::from(code).data_bytes();
    if n < wire::REPLY_ROOM {
        return BARE_BYTES + n;
    }
    BARE_BYTES
}

// Whether there is no reason to ask again.
fn is_settled(wire: &Wire, ask: Ask, heard: Option<usize>, reply: &[u8]) -> bool {
    match heard {
        Some(0) => false,
        Some(n) => is_answer(wire, ask, front(reply, n)),
        None => true,
    }
}

// A refusal is an answer too.
fn is_answer(wire: &Wire, ask: Ask, reply: &[u8]) -> bool {
    match ask {
        Ask::Meter(question) => !matches!(
            polling::learned_from(question, wire.address, reply),
            Learned::Malformed(_)
        ),
        Ask::Mercury(address, code) => mercury::decode(address, code, reply).is_ok(),
    }
}
