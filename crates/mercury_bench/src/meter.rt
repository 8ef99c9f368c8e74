// What the bench's meter has, and the most that the digits of its replies hold.
ghost use Rattle.std.specs.Prelude.{◌≡◌};
ghost use Rattle.mercury_bench.specs.Meter.{tariffs_fit, load_fits, frequency_fits, is_within};

use mercury::{Frequency, Load, Tariffs};

#[derive(Clone, Copy)]
pub struct Meter {
    pub address: u32,
    pub tariffs: Tariffs,
    pub load: Load,
    pub frequency: Frequency,
}

const MOST_TARIFF: u32 = 99_999_999;

const MOST_VOLTAGE: u16 = 9_999;

const MOST_CURRENT: u16 = 9_999;

const MOST_POWER: u32 = 999_999;

const MOST_FREQUENCY: u16 = 9_999;

// Whether every figure has no more digits than a reply has for it.
#[tactic(auto, unfolding(crate::specs::Meter::is_within))]
pub fn is_within(m: Meter) -> bool
    ensures { result ≡ is_within m }
{
    tariffs_fit(m.tariffs) && load_fits(m.load) && frequency_fits(m.frequency)
}

#[tactic(auto, unfolding(crate::specs::Meter::tariffs_fit))]
fn tariffs_fit(t: Tariffs) -> bool
    ensures { result ≡ tariffs_fit t }
{
    t.first.0 <= MOST_TARIFF
        && t.second.0 <= MOST_TARIFF
        && t.third.0 <= MOST_TARIFF
        && t.fourth.0 <= MOST_TARIFF
}

#[tactic(auto, unfolding(crate::specs::Meter::load_fits))]
fn load_fits(l: Load) -> bool
    ensures { result ≡ load_fits l }
{
    l.voltage.0 <= MOST_VOLTAGE && l.current.0 <= MOST_CURRENT && l.power.0 <= MOST_POWER
}

fn frequency_fits(f: Frequency) -> bool
    ensures { result ≡ frequency_fits f }
{
    f.frequency.0 <= MOST_FREQUENCY
}
