// A frame for the bench meter from C: the record's lent bytes are read, `meter` answers, and they are written anew where the command is done
// and is no read.
ghost use Rattle.std.specs.Prelude.{◌≡◌};
ghost use Rattle.meter_record_bytes.specs.Record.{record_of};
ghost use Rattle.refusal.specs.Outcome.{outcome};
ghost use Rattle.metlazuel.specs.MeterCalls.{bytes_left, sent_length, answer_for_c};

use crate::given;
use frame::layout::LONGEST;
use meter::Answered;
use refusal::Numbered;

// The record after a command that is done; a read leaves its bytes.
#[tactic(auto, unfolding(crate::specs::MeterCalls::bytes_left))]
fn put_after(meter: &mut [u8], frame: &[u8], answer: Answered)
    ensures { meter.new ≡ bytes_left answer frame.now meter.old }
{
    if meter_command::is_done(answer.verdict)
        && !meter_reply_data::is_read(meter_command::function_in(frame))
    {
        meter_record_bytes::put_record(meter, answer.after);
    }
}

// The reply's length where one is sent.
#[tactic(auto, unfolding(crate::specs::MeterCalls::sent_length))]
fn sent_length(sent: usize, before: usize) -> usize
    ensures { result ≡ sent_length sent before }
{
    if sent == 0 { before } else { sent }
}

// uint8_t metlazuel_meter_answer(uint8_t *meter, size_t n, uint8_t *store, size_t size, const uint8_t *frame, size_t bytes, uint8_t *out,
//     size_t room, size_t *length)
//
// The reply goes to the front of `out`, and its length to `length`, which is left as it was where the meter is silent.
#[tactic(auto, unfolding(crate::specs::MeterCalls::answer_for_c))]
pub fn metlazuel_meter_answer(
    meter: &mut [u8],
    store: &mut [u8],
    frame: &[u8],
    out: &mut [u8],
    length: &mut usize,
) -> u8
    ensures { outcome result (length.new, meter.new, store.new, out.new)
        ≡ answer_for_c (record_of meter.old) length.old meter.old store.old frame.now
        out.old }
{
    let Some(r) = meter_record_bytes::record_of(meter) else {
        return given::unread_number(out.len(), LONGEST);
    };
    let answer = meter::answer(r, store, frame, out);
    put_after(meter, frame, answer);
    *length = sent_length(answer.length, *length);
    answer.verdict.number()
}
