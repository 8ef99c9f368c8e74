// Register counts and energy, kept apart: multiplication by Ke is the only way from one to the other.
#![tactic(auto)]

ghost use Rattle.std.specs.Prelude.{◌≡◌};
ghost use Rattle.energy.specs.Energy.{energy_of};

// A number of register counts. A cell holds 16-bit counts; 32 bits hold the sum over the longest log.
#[derive(Clone, Copy, PartialEq, Eq)]
pub struct Counts(pub u32);

// Energy in milliwatt-hours. The field is private, so that nothing but `Counts::energy` makes one.
#[derive(Clone, Copy, PartialEq, Eq)]
pub struct MilliwattHours(u64);

impl Counts {
    // The energy that the counts stand for at `ke` milliwatt-hours a count.
    pub fn energy(self, ke: u16) -> MilliwattHours
        ensures { result ≡ energy_of self ke }
    {
        MilliwattHours((self.0 as u64) * (ke as u64))
    }
}

impl MilliwattHours {
    pub fn number(self) -> u64
        ensures { result ≡ self.0 }
    {
        self.0
    }
}
