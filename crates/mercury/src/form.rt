// Whether bytes are a frame for the one that they came to, and what is wrong with them first.
ghost use Rattle.std.specs.Prelude.{◌≡◌};
ghost use Rattle.mercury.specs.Form.{form_of, request_form, reply_form, repeats};

use crate::command::Command;
use crate::head::address_in;
use crate::layout;

// What is wrong with a frame, in the order in which it is looked for.
#[derive(Clone, Copy, PartialEq, Eq)]
pub enum Fault {
    Length,
    Crc,
    Address,
    Command,
}

// The form of a frame of `size` bytes for `address`, whose command is right or not.
#[tactic(auto, unfolding(crate::specs::Form::form_of))]
fn form_of(address: u32, size: usize, right: bool, frame: &[u8]) -> Result<(), Fault>
    ensures { result ≡ form_of address size right frame.now }
{
    if frame.len() != size {
        return Err(Fault::Length);
    }
    if !frame::crc_fits(frame) {
        return Err(Fault::Crc);
    }
    if address_in(frame) != address {
        return Err(Fault::Address);
    }
    if !right {
        return Err(Fault::Command);
    }
    Ok(())
}

// Of a request to the meter with this address: any of the three commands is right.
#[tactic(auto, unfolding(crate::specs::Form::request_form))]
pub fn request_form(address: u32, request: &[u8]) -> Result<(), Fault>
    ensures { result ≡ request_form address request.now }
{
    let c = Command::from(byte_numbers::byte_at(request, layout::COMMAND));
    form_of(address, layout::BARE_BYTES, c.is_known(), request)
}

// Of a reply to the request with this address and command.
#[tactic(auto, unfolding(crate::specs::Form::reply_form))]
pub fn reply_form(address: u32, code: u8, reply: &[u8]) -> Result<(), Fault>
    ensures { result ≡ reply_form address code reply.now }
{
    let size = layout::BARE_BYTES + Command::from(code).data_bytes();
    form_of(address, size, repeats(code, reply), reply)
}

// Whether a reply repeats a command, which has to be one of the three.
fn repeats(code: u8, reply: &[u8]) -> bool
    ensures { result ≡ repeats code reply.now }
{
    Command::from(code).is_known() && byte_numbers::byte_at(reply, layout::COMMAND) == code
}
