// A command, taken from its frame once: judgement, data, effect and reply go by it.
ghost use Rattle.std.specs.Prelude.{◌≡◌};
ghost use Rattle.meter_command.specs.Command.{named, reading_of, function_in, parameter_by, request_by, command_of};

use frame::layout;
use parameters::code::{Function, Parameter, Reading};
use parameters::table;
use parameters::table::Row;
use request::Request;

#[derive(Clone, Copy)]
pub struct Command {
    // The case that it is.
    pub function: Function,
    // Its function's byte and its parameter's, which the reply repeats; 0 where it names no parameter.
    pub function_byte: u8,
    pub parameter_byte: u8,
    // The parameter, and its row of the table.
    pub parameter: Parameter,
    pub row: Row,
    // The fields of a read.
    pub request: Request,
    // The byte before the data: the detail of a change, the level of a password.
    pub detail: u8,
    // The bytes of the whole frame.
    pub length: usize,
}

pub fn function_in(frame: &[u8]) -> Function
    ensures { result ≡ function_in frame.now }
{
    Function::from(byte_numbers::byte_at(frame, layout::FUNCTION))
}

// Whether the function's commands name a parameter.
fn is_named(function: Function) -> bool
    ensures { result ≡ named function }
{
    matches!(
        function,
        Function::Read(_) | Function::Change | Function::Zero
    )
}

fn parameter_by(function: Function, frame: &[u8]) -> u8
    ensures { result ≡ parameter_by function frame.now }
{
    // The shortest frame has no more than address, function and CRC.
    if layout::SHORTEST < frame.len() && is_named(function) {
        byte_numbers::byte_at(frame, layout::PARAMETER)
    } else {
        0
    }
}

// What a read is answered with. Of another command it is not looked at.
fn reading_of(function: Function) -> Reading
    ensures { result ≡ reading_of function }
{
    match function {
        Function::Read(reading) => reading,
        _ => Reading::Stored,
    }
}

// The fields of a read.
fn request_by(function: Function, frame: &[u8]) -> Request
    ensures { result ≡ request_by function frame.now }
{
    Request {
        reading: reading_of(function),
        address: byte_numbers::byte_at(frame, layout::ADDRESS),
        parameter: byte_numbers::byte_at(frame, layout::PARAMETER),
        offset: byte_numbers::byte_at(frame, layout::OFFSET),
        tariff: byte_numbers::byte_at(frame, layout::TARIFF),
        detail: byte_numbers::byte_at(frame, layout::READ_DETAIL),
    }
}

#[tactic(auto, unfolding(crate::specs::Command::parameter_byte))]
pub fn command_of(frame: &[u8]) -> Command
    ensures { result ≡ command_of frame.now }
{
    let function = function_in(frame);
    let parameter_byte = parameter_by(function, frame);
    let parameter = Parameter::from(parameter_byte);
    Command {
        function,
        function_byte: byte_numbers::byte_at(frame, layout::FUNCTION),
        parameter_byte,
        parameter,
        row: table::parameter_row(parameter),
        request: request_by(function, frame),
        detail: byte_numbers::byte_at(frame, layout::DETAIL),
        length: frame.len(),
    }
}
