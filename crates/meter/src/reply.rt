// The answer to a frame.
ghost use Rattle.std.specs.Prelude.{◌≡◌, ◌≤◌, ◌+◌, length};
ghost use Rattle.byte_numbers.specs.Place.{written};
ghost use Rattle.frame.specs.Layout.{data_place, longest};
ghost use Rattle.meter.specs.Reply.{outcome, is_sound, met_at, is_heard, function_for, head_of, replied, filled, answer_of};
ghost use Rattle.meter_command.specs.Command.{command_of};
ghost use Rattle.meter_command.specs.Judgement.{verdict_of};
ghost use Rattle.meter_reply_data.specs.Reading.{data_of};

use crate::effect;
use frame::layout;
use meter_command::{Command, Met, Refusal};
use meter_record::Record;
use parameters::code;

#[derive(Clone, Copy)]
pub struct Answered {
    pub verdict: Result<(), Refusal>,
    // The reply's bytes, at the front of the output; none where the meter is silent.
    pub length: usize,
    pub after: Record,
}

// Whether record and store are a meter's.
#[tactic(auto, unfolding(crate::specs::Reply::is_sound))]
pub fn is_sound(r: Record, store: &[u8]) -> bool
    ensures { result ≡ is_sound r store.now }
{
    store.len() == meter_store::STORE_BYTES && meter_record::is_within(r)
}

// Which address bytes met that may be a frame for the meter with an address of its own: that one, 0, or neither.
fn address_met(own: u8, frame: &[u8]) -> Met
    ensures { result ≡ met_at own frame.now }
{
    if !frame::is_sealed(frame) {
        return Met::Neither;
    }
    let address = byte_numbers::byte_at(frame, layout::ADDRESS);
    if address == 0 {
        Met::Zero
    } else if address == own {
        Met::Own
    } else {
        Met::Neither
    }
}

fn is_heard(met: Met) -> bool
    ensures { result ≡ is_heard met }
{
    met != Met::Neither
}

// The command's function, with its top bit set where the command is refused.
#[tactic(auto, unfolding(crate::specs::Reply::function_for))]
fn function_for(v: Result<(), Refusal>, function: u8) -> u8
    ensures { result ≡ function_for v function }
{
    if meter_command::is_done(v) || code::REFUSED <= function {
        function
    } else {
        code::REFUSED + function
    }
}

// The four bytes before the data: the command's address, function and parameter, and the result.
#[tactic(auto, unfolding(crate::specs::Reply::head_of))]
fn put_head(out: &mut [u8], v: Result<(), Refusal>, c: Command)
    ensures { out.new ≡ written out.old 0 (head_of v c) }
{
    let head = [
        c.request.address,
        function_for(v, c.function_byte),
        c.parameter_byte,
        meter_command::result_of(v),
    ];
    byte_numbers::put_bytes(out, 0, &head);
}

// The meter's answer: the reply goes to the front of `out`, and what the command changes in the store is changed.
#[tactic(auto, unfolding(crate::specs::Reply::answer_of, crate::specs::Reply::heard, crate::specs::Reply::met))]
pub fn answer(r: Record, store: &mut [u8], frame: &[u8], out: &mut [u8]) -> Answered
    ensures { outcome result store.new out.new ≡ answer_of r store.old frame.now out.old }
{
    let refusal = if out.len() < layout::LONGEST {
        Refusal::TooShort
    } else if !is_sound(r, store) {
        Refusal::Unsound
    } else {
        let met = address_met(r.address, frame);
        if is_heard(met) {
            return replied(met, r, store, frame, out);
        }
        Refusal::Silent
    };
    Answered {
        verdict: Err(refusal),
        length: 0,
        after: r,
    }
}

fn replied(met: Met, r: Record, store: &mut [u8], frame: &[u8], out: &mut [u8]) -> Answered
    requires { longest ≤ length out.old }
    ensures { outcome result store.new out.new
        ≡ replied (verdict_of met r (command_of frame.now) frame.now) r store.old frame.now out.old }
{
    let c = meter_command::command_of(frame);
    let v = meter_command::judge(met, r, c, frame);
    put_head(out, v, c);
    if meter_command::is_done(v) {
        return done(v, r, store, c, frame, out);
    }
    frame::seal(out, layout::DATA);
    Answered {
        verdict: v,
        length: layout::BARE_BYTES,
        after: r,
    }
}

// The data part, lent on from the fifth byte to whoever fills it.
fn fill(out: &mut [u8], r: Record, store: &[u8], c: Command)
    requires { longest ≤ length out.old }
    ensures { out.new ≡ written out.old data_place (data_of r store.now c) }
{
    meter_reply_data::put_data(&mut out[layout::DATA..], r, store, c);
}

// The data behind the head, and what the command leaves.
fn done(
    v: Result<(), Refusal>,
    r: Record,
    store: &mut [u8],
    c: Command,
    frame: &[u8],
    out: &mut [u8],
) -> Answered
    requires longest_in_bounds { longest ≤ length out.old }
    requires c_value { c ≡ command_of frame.now }
    ensures { outcome result store.new out.new ≡ filled v r store.old frame.now out.old }
{
    let size = meter_reply_data::data_size(c);
    fill(out, r, store, c);
    frame::seal(out, layout::DATA + size);
    effect::clear_store(store, c);
    Answered {
        verdict: v,
        length: layout::BARE_BYTES + size,
        after: effect::record_after(r, c, frame),
    }
}
