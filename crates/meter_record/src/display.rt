// What the display shows: what the mask says, and what is always shown.
ghost use Rattle.std.specs.Prelude.{◌≡◌};
ghost use Rattle.meter_record.specs.Display.{shown_of, with_bit};

use wire_values::DisplayMask;

// The bit of parameter 32.
const LAST_PARAMETER: u32 = 0x8000_0000;

// What is shown, as a mask: parameters 1 and 32 and direction E+ always are.
#[tactic(auto, using(crate::proofs::DisplayLaws::first_byte), unfolding(crate::specs::Display::shown_of))]
pub fn shown(m: DisplayMask) -> DisplayMask
    ensures { result ≡ shown_of m }
{
    DisplayMask {
        parameters: with_last(with_first(m.parameters)),
        tariffs: m.tariffs,
        directions: with_first(m.directions as u32) as u8,
    }
}

// By a sum and not by `|`: the laws of a mask are those of its number.
#[tactic(auto, using(crate::proofs::DisplayLaws::first_there, crate::proofs::DisplayLaws::first_set))]
fn with_first(mask: u32) -> u32
    ensures { result ≡ with_bit mask 0 }
{
    if mask % 2 == 1 { mask } else { mask + 1 }
}

#[tactic(auto, using(crate::proofs::DisplayLaws::last_there, crate::proofs::DisplayLaws::last_set))]
fn with_last(mask: u32) -> u32
    ensures { result ≡ with_bit mask 31 }
{
    if LAST_PARAMETER <= mask {
        mask
    } else {
        mask + LAST_PARAMETER
    }
}
