// Energy as the meter's display shows it: milliwatt-hours as the bits of the nearest 32-bit float in kilowatt-hours.
//
// Whole numbers alone: the number is moved up until it fills 64 binary digits, divided once so that the float's own 24 are left, and rounded
// once. proofs/Claims.antt: no finite float is nearer, of two as near it is the even one, and no other float is such.
#![tactic(auto)]

ghost use Rattle.std.specs.Prelude.{◌≡◌, ◌*◌, ◌^◌, ◌≤◌, ◌<◌};
ghost use Rattle.std.specs.Float.Ieee.Nearest.{closest};
ghost use Rattle.kilowatt_hours.specs.Bits.{kwh_bits};

use std::cmp::Ordering;

const PLUS_ZERO: u32 = 0;

// One more in a float's exponent, which stands before its 23 digits.
const EXPONENT: u32 = 0x80_0000;

// A kilowatt-hour in milliwatt-hours, 1,000,000, moved up by 20 digits: there are 2^23 to 2^25 of it in a number of 64 digits.
const UNIT: u64 = 1_048_576_000_000;

// 2^24 of it: from here on they would be 25 digits.
const LONGER: u64 = 17_592_186_044_416_000_000;

// The unit moved up by one digit more, which leaves 24 there too.
const DOUBLE_UNIT: u64 = 2_097_152_000_000;

// The digits that are dropped where the number has no leading zero: 149 since a float's smallest step is 2^-149, and the unit's 20.
const DROPPED: u32 = 169;

// The bits of the float nearest to n / 1,000,000.
pub fn kwh_bits(n: u64) -> u32
    ensures { result ≡ kwh_bits n }
{
    if n == 0 {
        return PLUS_ZERO;
    }
    let zeros = n.leading_zeros();
    let digits = n << zeros;
    if digits < LONGER {
        return (DROPPED - zeros) * EXPONENT + closest_whole(digits, UNIT);
    }
    (DROPPED + 1 - zeros) * EXPONENT + closest_whole(digits, DOUBLE_UNIT)
}

// a / unit to the nearest whole number, a tie to the even one. Its 24th digit, which a float does not store, and a carry beyond it count as
// one of the exponent each.
fn closest_whole(a: u64, unit: u64) -> u32
    requires { (0 < unit) × (unit ≤ 2 ^ 63) × (a < 2 ^ 24 * unit) }
    ensures { (result ≡ closest a unit) × (result ≤ 2 ^ 24) }
{
    let whole = (a / unit) as u32;
    let twice = a % unit * 2;
    match twice.cmp(&unit) {
        Ordering::Less => whole,
        Ordering::Equal => { if whole % 2 == 0 { whole } else { whole + 1 } }
        Ordering::Greater => whole + 1,
    }
}
