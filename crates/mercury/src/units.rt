// What is read of a meter, each figure in its own unit.

#[derive(Clone, Copy)]
pub struct TensOfWattHours(pub u32);

#[derive(Clone, Copy)]
pub struct TenthsOfVolt(pub u16);

#[derive(Clone, Copy)]
pub struct HundredthsOfAmpere(pub u16);

#[derive(Clone, Copy)]
pub struct Watts(pub u32);

#[derive(Clone, Copy)]
pub struct HundredthsOfHertz(pub u16);

// The energy by tariff.
#[derive(Clone, Copy)]
pub struct Tariffs {
    pub first: TensOfWattHours,
    pub second: TensOfWattHours,
    pub third: TensOfWattHours,
    pub fourth: TensOfWattHours,
}

#[derive(Clone, Copy)]
pub struct Load {
    pub voltage: TenthsOfVolt,
    pub current: HundredthsOfAmpere,
    pub power: Watts,
}

// Seven bytes, whatever they are.
#[derive(Clone, Copy)]
pub struct Rest(pub u8, pub u8, pub u8, pub u8, pub u8, pub u8, pub u8);

// The frequency, and the bytes behind it.
#[derive(Clone, Copy)]
pub struct Frequency {
    pub frequency: HundredthsOfHertz,
    pub rest: Rest,
}
