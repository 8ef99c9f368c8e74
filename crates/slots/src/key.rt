// The key of a slice: it names no year, and the days of every month run to 31.
ghost use Rattle.std.specs.Prelude.{◌≡◌};
ghost use Rattle.slots.specs.Key.{is_legal};

#[derive(Clone, Copy, PartialEq, Eq)]
pub struct Key {
    pub month: u8,
    pub day: u8,
    pub number: u8,
}

const MONTHS: u8 = 12;

const DAYS: u8 = 31;

#[tactic(auto, unfolding(crate::specs::Key::is_legal))]
pub fn is_legal(k: Key, slots: u8) -> bool
    ensures { result ≡ is_legal k slots }
{
    1 <= k.month && k.month <= MONTHS && 1 <= k.day && k.day <= DAYS && k.number < slots
}
