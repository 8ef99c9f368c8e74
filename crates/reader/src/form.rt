// What a reply comes to, before its figures are looked at: whether it is well formed, what is wrong with it first, and the meter's result.
ghost use Rattle.std.specs.Prelude.{◌≡◌};
ghost use Rattle.reader.specs.declared.form.ReplyError.TheVariants.{Malformed};
ghost use Rattle.reader.specs.Form.{reply_of, form_of, head_of, length_for, function_for, fault_number, length_or};

use frame::layout;
use parameters::code;
use refusal::Numbered;

// What is wrong with a reply, in the order in which it is looked for.
#[derive(Clone, Copy, PartialEq, Eq)]
pub enum Fault {
    // How many bytes came.
    Length(usize),
    Crc,
    Address,
    // Another function, or a top bit that belies the result.
    Function,
    Parameter,
}

#[derive(Clone, Copy, PartialEq, Eq)]
pub enum ReplyError {
    Malformed(Fault),
    // The meter's result, which is not 0.
    Refused(u8),
}

impl From<Fault> for ReplyError {
    ghost from_gives = { λ fault e. e ≡ Malformed fault };

    fn from(fault: Fault) -> ReplyError {
        ReplyError::Malformed(fault)
    }
}

impl Numbered for Fault {
    // Document 02's number.
    ghost number_of = { fault_number };

    fn number(&self) -> u8 {
        match self {
            Fault::Length(_) => refusal::REPLY_LENGTH,
            Fault::Crc => refusal::REPLY_CRC,
            Fault::Address => refusal::REPLY_ADDRESS,
            Fault::Function => refusal::REPLY_FUNCTION,
            Fault::Parameter => refusal::REPLY_PARAMETER,
        }
    }
}

impl Fault {
    // How many bytes came, which a wrong length alone tells.
    pub fn length_or(self, other: usize) -> usize
        ensures { result ≡ length_or self other }
    {
        match self {
            Fault::Length(n) => n,
            Fault::Crc | Fault::Address | Fault::Function | Fault::Parameter => other,
        }
    }
}

// What a reply comes to: one to a request with `function` and `parameter` sent to `address`, whose full reply has `full` bytes.
#[tactic(auto, unfolding(crate::specs::Form::reply_of))]
pub fn reply_of(
    address: u8,
    function: u8,
    parameter: u8,
    full: usize,
    reply: &[u8],
) -> Result<(), ReplyError>
    ensures { result ≡ reply_of address function parameter full reply.now }
{
    form_of(address, function, parameter, full, reply)?;
    let result = byte_numbers::byte_at(reply, layout::RESULT);
    if result == code::OK {
        Ok(())
    } else {
        Err(ReplyError::Refused(result))
    }
}

// Its form.
#[tactic(auto, unfolding(crate::specs::Form::form_of))]
fn form_of(address: u8, function: u8, parameter: u8, full: usize, reply: &[u8]) -> Result<(), Fault>
    ensures { result ≡ form_of address function parameter full reply.now }
{
    let length = length_for(byte_numbers::byte_at(reply, layout::FUNCTION), full);
    if reply.len() != length {
        return Err(Fault::Length(reply.len()));
    }
    if frame::crc_fits(reply) {
        head_of(address, function, parameter, reply)
    } else {
        Err(Fault::Crc)
    }
}

// What a reply's first four bytes say.
#[tactic(auto, unfolding(crate::specs::Form::head_of))]
fn head_of(address: u8, function: u8, parameter: u8, reply: &[u8]) -> Result<(), Fault>
    ensures { result ≡ head_of address function parameter reply.now }
{
    let sender = byte_numbers::byte_at(reply, layout::ADDRESS);
    let done = byte_numbers::byte_at(reply, layout::FUNCTION);
    let asked = byte_numbers::byte_at(reply, layout::PARAMETER);
    let wanted = function_for(function, byte_numbers::byte_at(reply, layout::RESULT));
    if sender != address {
        return Err(Fault::Address);
    }
    if done as u16 != wanted {
        return Err(Fault::Function);
    }
    if asked != parameter {
        return Err(Fault::Parameter);
    }
    Ok(())
}

#[tactic(auto, unfolding(crate::specs::Form::length_for))]
fn length_for(function: u8, full: usize) -> usize
    ensures { result ≡ length_for function full }
{
    if code::REFUSED <= function {
        layout::BARE_BYTES
    } else {
        full
    }
}

// Of 16 bits: a function may be any byte, and the top bit is added to it.
#[tactic(auto, unfolding(crate::specs::Form::function_for))]
fn function_for(function: u8, res: u8) -> u16
    ensures { result ≡ function_for function res }
{
    if res == code::OK {
        function as u16
    } else {
        code::REFUSED as u16 + function as u16
    }
}
