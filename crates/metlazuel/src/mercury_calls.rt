// The Mercury 206 for C: its requests, replies and bench, which enter no log. `c_mercury` has the work.
ghost use Rattle.std.specs.Prelude.{◌≡◌};
ghost use Rattle.refusal.specs.Outcome.{outcome};
ghost use Rattle.c_mercury.specs.Calls.{request_for_c, decode_for_c, tariffs_from, load_from, frequency_from, meter_from, answer_for_c};

// uint8_t metlazuel_mercury_request(uint32_t address, uint8_t command, uint8_t *out, size_t room)
pub fn metlazuel_mercury_request(address: u32, command: u8, out: &mut [u8]) -> u8
    ensures { outcome result out.new ≡ request_for_c address command out.old }
{
    c_mercury::request(address, command, out)
}

// uint8_t metlazuel_mercury_decode(uint32_t address, uint8_t command, const uint8_t *reply, size_t bytes, uint32_t *figures, size_t room,
//     size_t *count)
pub fn metlazuel_mercury_decode(
    address: u32,
    command: u8,
    reply: &[u8],
    figures: &mut [u32],
    count: &mut usize,
) -> u8
    ensures { outcome result (count.new, figures.new)
        ≡ decode_for_c address command reply.now figures.old count.old }
{
    c_mercury::decode(address, command, reply, figures, count)
}

// uint8_t metlazuel_mercury_answer(uint32_t address, uint32_t first, uint32_t second, uint32_t third, uint32_t fourth, uint16_t voltage,
//     uint16_t current, uint32_t power, uint16_t frequency, const uint8_t *rest, size_t size, const uint8_t *request, size_t bytes,
//     uint8_t *out, size_t room, size_t *length)
pub fn metlazuel_mercury_answer(
    address: u32,
    first: u32,
    second: u32,
    third: u32,
    fourth: u32,
    voltage: u16,
    current: u16,
    power: u32,
    frequency: u16,
    rest: &[u8],
    request: &[u8],
    out: &mut [u8],
    length: &mut usize,
) -> u8
    ensures { outcome result (length.new, out.new)
        ≡ answer_for_c (meter_from address (tariffs_from first second third fourth) (load_from voltage current power) (frequency_from frequency rest.now))
        request.now out.old length.old }
{
    c_mercury::answer(
        address, first, second, third, fourth, voltage, current, power, frequency, rest, request,
        out, length,
    )
}
