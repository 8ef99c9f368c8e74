// Read requests and their replies for C, without a log. A reply's figures go to a lent row of 32-bit numbers.
ghost use Rattle.std.specs.Prelude.{◌≡◌, cond, eqb};
ghost use Rattle.refusal.specs.Outcome.{outcome};
ghost use Rattle.parameters.specs.declared.code.Reading.TheVariants.{Stored, Displayed};
ghost use Rattle.request.specs.Request.{requested, number_of};
ghost use Rattle.metlazuel.specs.Calls.{numbered};
ghost use Rattle.metlazuel.specs.WireCalls.{request_from, decode_for_c};

use crate::given;
use parameters::code::Reading;
use refusal::Numbered;
use request::Request;

// uint8_t metlazuel_request(uint8_t address, uint8_t parameter, uint8_t offset, uint8_t tariff, uint8_t detail, uint8_t *out, size_t room)
//
// A read request's frame goes to the front of `out`.
pub fn metlazuel_request(
    address: u8,
    parameter: u8,
    offset: u8,
    tariff: u8,
    detail: u8,
    out: &mut [u8],
) -> u8
    ensures { outcome result out.new
        ≡ numbered number_of (requested (request_from Stored address parameter offset tariff detail) out.old) }
{
    let q = Request {
        reading: Reading::Stored,
        address,
        parameter,
        offset,
        tariff,
        detail,
    };
    request::put_request(q, out).number()
}

// uint8_t metlazuel_request4(uint8_t address, uint8_t parameter, uint8_t offset, uint8_t tariff, uint8_t detail, uint8_t *out, size_t room)
//
// The same with function 4: figures as the display shows them.
pub fn metlazuel_request4(
    address: u8,
    parameter: u8,
    offset: u8,
    tariff: u8,
    detail: u8,
    out: &mut [u8],
) -> u8
    ensures { outcome result out.new
        ≡ numbered number_of (requested (request_from Displayed address parameter offset tariff detail) out.old) }
{
    let q = Request {
        reading: Reading::Displayed,
        address,
        parameter,
        offset,
        tariff,
        detail,
    };
    request::put_request(q, out).number()
}

// uint8_t metlazuel_decode(uint8_t address, uint8_t parameter, uint8_t offset, uint8_t tariff, uint8_t detail, const uint8_t *reply,
//     size_t bytes, uint32_t *figures, size_t room, size_t *count, uint8_t *result, size_t *length)
//
// The figures go to the front of `figures` and their number to `count`, a meter's result that is not 0 to `result`, a length that is wrong
// to `length`.
pub fn metlazuel_decode(
    address: u8,
    parameter: u8,
    offset: u8,
    tariff: u8,
    detail: u8,
    reply: &[u8],
    figures: &mut [u32],
    count: &mut usize,
    res: &mut u8,
    length: &mut usize,
) -> u8
    ensures { outcome result (count.new, res.new, length.new, figures.new)
        ≡ decode_for_c (request_from Stored address parameter offset tariff detail) reply.now figures.old
        count.old res.old length.old }
{
    let q = Request {
        reading: Reading::Stored,
        address,
        parameter,
        offset,
        tariff,
        detail,
    };
    decode(q, reply, figures, count, res, length)
}

// uint8_t metlazuel_decode4(uint8_t address, uint8_t parameter, uint8_t offset, uint8_t tariff, uint8_t detail, const uint8_t *reply,
//     size_t bytes, uint32_t *figures, size_t room, size_t *count, uint8_t *result, size_t *length)
//
// The same of a reply to a request with function 4: the figures are the bits of floats.
pub fn metlazuel_decode4(
    address: u8,
    parameter: u8,
    offset: u8,
    tariff: u8,
    detail: u8,
    reply: &[u8],
    figures: &mut [u32],
    count: &mut usize,
    res: &mut u8,
    length: &mut usize,
) -> u8
    ensures { outcome result (count.new, res.new, length.new, figures.new)
        ≡ decode_for_c (request_from Displayed address parameter offset tariff detail) reply.now figures.old
        count.old res.old length.old }
{
    let q = Request {
        reading: Reading::Displayed,
        address,
        parameter,
        offset,
        tariff,
        detail,
    };
    decode(q, reply, figures, count, res, length)
}

#[tactic(auto, unfolding(crate::specs::WireCalls::decode_for_c))]
fn decode(
    q: Request,
    reply: &[u8],
    figures: &mut [u32],
    count: &mut usize,
    res: &mut u8,
    length: &mut usize,
) -> u8
    ensures { outcome result (count.new, res.new, length.new, figures.new)
        ≡ decode_for_c q reply.now figures.old count.old res.old length.old }
{
    let foretold = c_values::figures_for(request::subject_of(q, request::MOST_SLOTS));
    if figures.len() < foretold {
        return refusal::TOO_SHORT;
    }
    let decoded = reader::decode(q, reply);
    c_values::put_figures(figures, decoded, reply);
    let number = decoded.number();
    *res = given::result_after(number, reply, *res);
    *length = given::received_after(number, reply, *length);
    *count = count_after(number, foretold, *count);
    number
}

fn count_after(number: u8, foretold: usize, before: usize) -> usize
    ensures { result ≡ cond (eqb number 0) foretold before }
{
    if number == refusal::DONE {
        foretold
    } else {
        before
    }
}
