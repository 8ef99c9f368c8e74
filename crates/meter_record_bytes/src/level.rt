// The level of access, as a byte.
ghost use Rattle.std.specs.Prelude.{◌≡◌};
ghost use Rattle.meter_record_bytes.specs.Level.{level_byte, level_of};

use meter_clock::Level;

const SHUT: u8 = 0;

const AUXILIARY: u8 = 1;

const MAIN: u8 = 2;

pub fn level_byte(l: Level) -> u8
    ensures { result ≡ level_byte l }
{
    match l {
        Level::Shut => SHUT,
        Level::Auxiliary => AUXILIARY,
        Level::Main => MAIN,
    }
}

#[tactic(auto, unfolding(crate::specs::Level::level_of))]
pub fn level_of(byte: u8) -> Option<Level>
    ensures { result ≡ level_of byte }
{
    match byte {
        SHUT => Some(Level::Shut),
        AUXILIARY => Some(Level::Auxiliary),
        MAIN => Some(Level::Main),
        _ => None,
    }
}
