// The Mercury 206 for firmware in C: numbers and lent memory alone go in and out, and each function answers with the papers' number.
// `metlazuel` hands them on under their names for C.
#![tactic(auto)]

mod answering;
mod decoding;

ghost use Rattle.std.specs.Prelude.{◌≡◌};
ghost use Rattle.refusal.specs.Outcome.{outcome};
ghost use Rattle.c_mercury.specs.Calls.{request_for_c};

pub use answering::answer;
pub use decoding::decode;
use refusal::Numbered;

// A request's frame to the front of `out`.
#[tactic(auto, unfolding(crate::specs::Calls::request_for_c))]
pub fn request(address: u32, code: u8, out: &mut [u8]) -> u8
    ensures { outcome result out.new ≡ request_for_c address code out.old }
{
    mercury::put_request(address, code, out).number()
}
