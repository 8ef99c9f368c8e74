// A frame for the bench meter from C.
ghost use Rattle.std.specs.Prelude.{◌≡◌};
ghost use Rattle.meter_record_bytes.specs.Record.{record_of};
ghost use Rattle.refusal.specs.Outcome.{outcome};
ghost use Rattle.metlazuel.specs.MeterCalls.{answer_for_c};

#[unsafe(no_mangle)]
pub extern "C" fn metlazuel_meter_answer(
    meter: &mut [u8],
    store: &mut [u8],
    frame: &[u8],
    out: &mut [u8],
    length: &mut usize,
) -> u8
    ensures { outcome result (length.new, meter.new, store.new, out.new)
        ≡ answer_for_c (record_of meter.old) length.old meter.old store.old frame.now
        out.old }
{
    metlazuel::metlazuel_meter_answer(meter, store, frame, out, length)
}
