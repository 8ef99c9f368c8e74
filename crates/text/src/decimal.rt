// Numbers in decimal digits.
ghost use Rattle.std.specs.Prelude.{◌≡◌, length};
ghost use Rattle.byte_numbers.specs.Place.{written};
ghost use Rattle.text.specs.Decimal.{decimal, padded};

const TEN: u64 = 10;

// The digit 0.
const ZERO: u8 = 48;

pub fn decimal_length(n: u64) -> usize
    ensures { result ≡ length (decimal n) }
{
    if TEN <= n {
        return decimal_length(n / TEN) + 1;
    }
    1
}

// Puts a number's digits from a place on, and answers how many it has, stored or not.
pub fn put_decimal(out: &mut [u8], at: usize, n: u64) -> usize
    ensures { (out.new ≡ written out.old at (decimal n)) × (result ≡ length (decimal n)) }
{
    if out.len() <= at {
        return decimal_length(n);
    }
    if n < TEN {
        byte_numbers::put_byte(out, at, ZERO + n as u8);
        return 1;
    }
    // The last digit goes behind those of the tenth.
    let before = put_decimal(out, at, n / TEN);
    byte_numbers::put_byte(out, at + before, ZERO + (n % TEN) as u8);
    before + 1
}

// The last two digits of a number, with a leading zero where it has one, as dates and times have them.
pub fn put_two(out: &mut [u8], at: usize, n: u8)
    ensures { out.new ≡ written out.old at (padded 2 n) }
{
    if at < out.len() {
        byte_numbers::put_byte(out, at, ZERO + n / 10 % 10);
        byte_numbers::put_byte(out, at + 1, ZERO + n % 10);
    }
}
