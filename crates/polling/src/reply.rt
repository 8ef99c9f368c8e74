// How long the line is listened to after a request.
ghost use Rattle.std.specs.Prelude.{◌≡◌};
ghost use Rattle.polling.specs.Reply.{is_whole, is_ended, is_over, is_enough};

use frame::layout;
use parameters::code;

// The silent reads before a reply's first byte that mean that none comes.
pub const SILENT_MOST: u8 = 10;

// Whether a reply has all its bytes, or more, where one that is no refusal has so many.
#[tactic(auto, unfolding(crate::specs::Reply::is_whole, reader::specs::Form::length_for))]
pub fn is_whole(full: usize, reply: &[u8]) -> bool
    ensures { result ≡ is_whole full reply.now }
{
    if code::REFUSED <= byte_numbers::byte_at(reply, layout::FUNCTION) {
        return layout::BARE_BYTES <= reply.len();
    }
    full <= reply.len()
}

// Whether one that is not whole has ended, with so many of its bytes heard and so many silent reads since the last of them.
fn is_ended(heard: usize, silent: u8) -> bool
    ensures { result ≡ is_ended heard silent }
{
    if heard == 0 {
        SILENT_MOST <= silent
    } else {
        0 < silent
    }
}

// Whether to stop listening, with these bytes heard and so many silent reads since the last of them.
#[tactic(auto, unfolding(crate::specs::Reply::is_over))]
pub fn is_over(full: usize, reply: &[u8], silent: u8) -> bool
    ensures { result ≡ is_over full reply.now silent }
{
    is_whole(full, reply) || is_ended(reply.len(), silent)
}

// The same of a meter whose replies all have their full length, as the Mercury 206's do: so many bytes were heard.
#[tactic(auto, unfolding(crate::specs::Reply::is_enough))]
pub fn is_enough(full: usize, heard: usize, silent: u8) -> bool
    ensures { result ≡ is_enough full heard silent }
{
    full <= heard || is_ended(heard, silent)
}
