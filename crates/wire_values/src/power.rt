// Parameters 8 and 9: the powers of three phases and their total, as 32-bit floats.
ghost use Rattle.std.specs.Prelude.{◌≡◌};
ghost use Rattle.wire_values.specs.Power.{total_of, is_finite, power_of, together, phases_of, powers_of, bits_of, power_bytes, phases_bytes, powers_bytes};
ghost use Rattle.byte_numbers.specs.Place.{written};

// The phase powers of one reading. No `==`: a float need not equal itself.
#[derive(Clone, Copy)]
pub struct Phases {
    pub a: f32,
    pub b: f32,
    pub c: f32,
}

// The phases and their total, as a reply has them. No `==`, as above.
#[derive(Clone, Copy)]
pub struct Powers {
    pub total: f32,
    pub phases: Phases,
}

impl Phases {
    // The sum of the three, each addition rounded to 32 bits.
    #[tactic(auto, unfolding(crate::specs::Power::total_of))]
    pub fn total(self) -> f32
        ensures { result ≡ total_of self }
    {
        (self.a + self.b) + self.c
    }
}

// The bits of a float, without its sign, from which on it is an infinity or no number.
const INFINITY: u32 = 0x7F80_0000;

const SIGN: u32 = 0x8000_0000;

// Whether a float's bits are those of a number.
pub fn is_finite(bits: u32) -> bool
    ensures { result ≡ is_finite bits }
{
    bits % SIGN < INFINITY
}

// The power at a place of a data part.
#[tactic(auto, unfolding(crate::specs::Power::power_of, crate::specs::Power::float_at))]
pub fn power_of(bytes: &[u8], at: usize) -> Option<f32>
    ensures { result ≡ power_of bytes.now at }
{
    let bits = byte_numbers::u32_at(bytes, at);
    if is_finite(bits) {
        Some(f32::from_bits(bits))
    } else {
        None
    }
}

// The powers A, B and C at the front of a part.
#[tactic(auto, unfolding(crate::specs::Power::phases_of))]
pub fn phases_of(bytes: &[u8]) -> Option<Phases>
    ensures { result ≡ phases_of bytes.now }
{
    together(power_of(bytes, 0), power_of(bytes, 4), power_of(bytes, 8))
}

// All three, or none.
#[tactic(auto, unfolding(crate::specs::Power::together))]
fn together(a: Option<f32>, b: Option<f32>, c: Option<f32>) -> Option<Phases>
    ensures { result ≡ together a b c }
{
    Some(Phases {
        a: a?,
        b: b?,
        c: c?,
    })
}

// The total and behind it the phases.
#[tactic(auto, unfolding(crate::specs::Power::powers_of))]
pub fn powers_of(bytes: &[u8]) -> Option<Powers>
    ensures { result ≡ powers_of bytes.now }
{
    Some(Powers {
        total: power_of(bytes, 0)?,
        phases: phases_of(byte_numbers::tail(bytes, 4))?,
    })
}

// The bits of a float; of what is no number, those of a quiet one, since Rattle leaves them open.
pub fn bits_of(x: f32) -> u32
    ensures { result ≡ bits_of x }
{
    if x.is_nan() {
        NO_NUMBER
    } else {
        f32::to_bits(x)
    }
}

const NO_NUMBER: u32 = 0x7FC0_0000;

#[tactic(auto, unfolding(crate::specs::Power::power_bytes))]
pub fn put_power(out: &mut [u8], at: usize, x: f32)
    ensures { out.new ≡ written out.old at (power_bytes x) }
{
    byte_numbers::put_u32(out, at, bits_of(x));
}

pub fn put_phases(out: &mut [u8], at: usize, p: Phases)
    ensures { out.new ≡ written out.old at (phases_bytes p) }
{
    if at < out.len() {
        put_power(out, at, p.a);
        put_power(out, at + 4, p.b);
        put_power(out, at + 8, p.c);
    }
}

pub fn put_powers(out: &mut [u8], p: Phases)
    ensures { out.new ≡ written out.old 0 (powers_bytes p) }
{
    put_power(out, 0, p.total());
    put_phases(out, 4, p);
}
