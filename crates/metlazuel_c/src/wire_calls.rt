// Read requests and their replies for C, without a log.
ghost use Rattle.std.specs.Prelude.{◌≡◌};
ghost use Rattle.refusal.specs.Outcome.{outcome};
ghost use Rattle.parameters.specs.declared.code.Reading.TheVariants.{Stored, Displayed};
ghost use Rattle.request.specs.Request.{requested, number_of};
ghost use Rattle.metlazuel.specs.Calls.{numbered};
ghost use Rattle.metlazuel.specs.WireCalls.{request_from, decode_for_c};

#[unsafe(no_mangle)]
pub extern "C" fn metlazuel_request(
    address: u8,
    parameter: u8,
    offset: u8,
    tariff: u8,
    detail: u8,
    out: &mut [u8],
) -> u8
    ensures { outcome result out.new
        ≡ numbered number_of (requested (request_from Stored address parameter offset tariff detail) out.old) }
{
    metlazuel::metlazuel_request(address, parameter, offset, tariff, detail, out)
}

#[unsafe(no_mangle)]
pub extern "C" fn metlazuel_request4(
    address: u8,
    parameter: u8,
    offset: u8,
    tariff: u8,
    detail: u8,
    out: &mut [u8],
) -> u8
    ensures { outcome result out.new
        ≡ numbered number_of (requested (request_from Displayed address parameter offset tariff detail) out.old) }
{
    metlazuel::metlazuel_request4(address, parameter, offset, tariff, detail, out)
}

#[unsafe(no_mangle)]
pub extern "C" fn metlazuel_decode(
    address: u8,
    parameter: u8,
    offset: u8,
    tariff: u8,
    detail: u8,
    reply: &[u8],
    figures: &mut [u32],
    count: &mut usize,
    res: &mut u8,
    length: &mut usize,
) -> u8
    ensures { outcome result (count.new, res.new, length.new, figures.new)
        ≡ decode_for_c (request_from Stored address parameter offset tariff detail) reply.now figures.old
        count.old res.old length.old }
{
    metlazuel::metlazuel_decode(
        address, parameter, offset, tariff, detail, reply, figures, count, res, length,
    )
}

#[unsafe(no_mangle)]
pub extern "C" fn metlazuel_decode4(
    address: u8,
    parameter: u8,
    offset: u8,
    tariff: u8,
    detail: u8,
    reply: &[u8],
    figures: &mut [u32],
    count: &mut usize,
    res: &mut u8,
    length: &mut usize,
) -> u8
    ensures { outcome result (count.new, res.new, length.new, figures.new)
        ≡ decode_for_c (request_from Displayed address parameter offset tariff detail) reply.now figures.old
        count.old res.old length.old }
{
    metlazuel::metlazuel_decode4(
        address, parameter, offset, tariff, detail, reply, figures, count, res, length,
    )
}
