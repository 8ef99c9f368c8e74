// What became of the asks, counted.
ghost use Rattle.std.specs.Prelude.{◌≡◌};
ghost use Rattle.polling.specs.Tally.{faulted_in, counted_in, passed_over, faults_together, together, passed_together};

use crate::fate::Fate;
use crate::standing::Standing;
use reader::Fault;

// The replies that were not well formed, by what was wrong with them. A wrong length or CRC speaks of the cable, the others of a setting.
#[derive(Clone, Copy)]
pub struct Faults {
    pub length: u32,
    pub crc: u32,
    pub address: u32,
    pub function: u32,
    pub parameter: u32,
}

#[derive(Clone, Copy)]
pub struct Tally {
    pub taken: u32,
    pub silent: u32,
    pub faults: Faults,
    pub refused: u32,
}

// The wanted intervals that were not asked for.
#[derive(Clone, Copy)]
pub struct Passed {
    pub not_over: u32,
    pub too_old: u32,
}

// One ask more. An ask that stopped the poll is not counted.
#[tactic(auto, unfolding(crate::specs::Tally::counted_in, crate::specs::Tally::one_more))]
pub fn counted(t: Tally, fate: Fate) -> Tally
    ensures { result ≡ counted_in t fate }
{
    let mut after = t;
    match fate {
        Fate::Taken => after.taken = t.taken.saturating_add(1),
        Fate::Silent => after.silent = t.silent.saturating_add(1),
        Fate::Malformed(fault) => after.faults = faulted(t.faults, fault),
        Fate::Refused => after.refused = t.refused.saturating_add(1),
        Fate::Stopped(_) => {}
    }
    after
}

#[tactic(auto, unfolding(crate::specs::Tally::faulted_in, crate::specs::Tally::one_more))]
fn faulted(f: Faults, fault: Fault) -> Faults
    ensures { result ≡ faulted_in f fault }
{
    let mut after = f;
    match fault {
        Fault::Length(_) => after.length = f.length.saturating_add(1),
        Fault::Crc => after.crc = f.crc.saturating_add(1),
        Fault::Address => after.address = f.address.saturating_add(1),
        Fault::Function => after.function = f.function.saturating_add(1),
        Fault::Parameter => after.parameter = f.parameter.saturating_add(1),
    }
    after
}

// One interval more that is not asked for; one that is due is counted by its fate.
#[tactic(auto, unfolding(crate::specs::Tally::passed_over, crate::specs::Tally::one_more))]
pub fn passed_over(p: Passed, standing: Standing) -> Passed
    ensures { result ≡ passed_over p standing }
{
    let mut after = p;
    match standing {
        Standing::Due => {}
        Standing::NotOver => after.not_over = p.not_over.saturating_add(1),
        Standing::TooOld => after.too_old = p.too_old.saturating_add(1),
    }
    after
}

// Two parts of a poll in one.
#[tactic(auto, unfolding(crate::specs::Tally::together, crate::specs::Tally::sum_of))]
pub fn together(a: Tally, b: Tally) -> Tally
    ensures { result ≡ together a b }
{
    Tally {
        taken: a.taken.saturating_add(b.taken),
        silent: a.silent.saturating_add(b.silent),
        faults: faults_together(a.faults, b.faults),
        refused: a.refused.saturating_add(b.refused),
    }
}

#[tactic(auto, unfolding(crate::specs::Tally::faults_together, crate::specs::Tally::sum_of))]
fn faults_together(a: Faults, b: Faults) -> Faults
    ensures { result ≡ faults_together a b }
{
    Faults {
        length: a.length.saturating_add(b.length),
        crc: a.crc.saturating_add(b.crc),
        address: a.address.saturating_add(b.address),
        function: a.function.saturating_add(b.function),
        parameter: a.parameter.saturating_add(b.parameter),
    }
}

#[tactic(auto, unfolding(crate::specs::Tally::passed_together, crate::specs::Tally::sum_of))]
pub fn passed_together(a: Passed, b: Passed) -> Passed
    ensures { result ≡ passed_together a b }
{
    Passed {
        not_over: a.not_over.saturating_add(b.not_over),
        too_old: a.too_old.saturating_add(b.too_old),
    }
}
