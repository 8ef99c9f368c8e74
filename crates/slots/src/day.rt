ghost use Rattle.std.specs.Prelude.{◌≡◌};
ghost use Rattle.slots.specs.Day.{slots_of};

// No day has more.
pub const SLOTS_MOST: u8 = 96;

// The slots of a day, by the interval's minutes; none for an interval that there is not.
#[tactic(auto, unfolding(crate::specs::Day::slots_of, crate::specs::Day::is_minutes))]
pub fn slots_of(minutes: u8) -> u8
    ensures { result ≡ slots_of minutes }
{
    match minutes {
        15 => SLOTS_MOST,
        30 => 48,
        _ => 0,
    }
}
