// The Mercury 206 for C.
ghost use Rattle.std.specs.Prelude.{◌≡◌};
ghost use Rattle.refusal.specs.Outcome.{outcome};
ghost use Rattle.c_mercury.specs.Calls.{request_for_c, decode_for_c, tariffs_from, load_from, frequency_from, meter_from, answer_for_c};

#[unsafe(no_mangle)]
pub extern "C" fn metlazuel_mercury_request(address: u32, command: u8, out: &mut [u8]) -> u8
    ensures { outcome result out.new ≡ request_for_c address command out.old }
{
    metlazuel::metlazuel_mercury_request(address, command, out)
}

#[unsafe(no_mangle)]
pub extern "C" fn metlazuel_mercury_decode(
    address: u32,
    command: u8,
    reply: &[u8],
    figures: &mut [u32],
    count: &mut usize,
) -> u8
    ensures { outcome result (count.new, figures.new)
        ≡ decode_for_c address command reply.now figures.old count.old }
{
    metlazuel::metlazuel_mercury_decode(address, command, reply, figures, count)
}

#[unsafe(no_mangle)]
pub extern "C" fn metlazuel_mercury_answer(
    address: u32,
    first: u32,
    second: u32,
    third: u32,
    fourth: u32,
    voltage: u16,
    current: u16,
    power: u32,
    frequency: u16,
    rest: &[u8],
    request: &[u8],
    out: &mut [u8],
    length: &mut usize,
) -> u8
    ensures { outcome result (length.new, out.new)
        ≡ answer_for_c (meter_from address (tariffs_from first second third fourth) (load_from voltage current power) (frequency_from frequency rest.now))
        request.now out.old length.old }
{
    metlazuel::metlazuel_mercury_answer(
        address, first, second, third, fourth, voltage, current, power, frequency, rest, request,
        out, length,
    )
}
