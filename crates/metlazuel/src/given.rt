// What more than one call gives C.
ghost use Rattle.std.specs.Prelude.{◌≡◌};
ghost use Rattle.metlazuel.specs.Calls.{unread_number, result_after, received_after};

use frame::layout;

// The number for bytes that are no ask or no record: an output that is too short stands before them.
#[tactic(auto, unfolding(crate::specs::Calls::unread_number))]
pub fn unread_number(room: usize, least: usize) -> u8
    ensures { result ≡ unread_number room least }
{
    if room < least {
        refusal::TOO_SHORT
    } else {
        refusal::UNSOUND
    }
}

// The meter's result, where the number for its reply says that it is not 0.
#[tactic(auto, unfolding(crate::specs::Calls::result_after))]
pub fn result_after(number: u8, reply: &[u8], before: u8) -> u8
    ensures { result ≡ result_after number reply.now before }
{
    if number == refusal::METER_REFUSED {
        byte_numbers::byte_at(reply, layout::RESULT)
    } else {
        before
    }
}

// The length of a reply, where the number for it says that it is wrong.
#[tactic(auto, unfolding(crate::specs::Calls::received_after))]
pub fn received_after(number: u8, reply: &[u8], before: usize) -> usize
    ensures { result ≡ received_after number reply.now before }
{
    if number == refusal::REPLY_LENGTH {
        reply.len()
    } else {
        before
    }
}
