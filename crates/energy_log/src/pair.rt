// Four pairs of bits in a byte, the first in the lowest bits.
ghost use Rattle.std.specs.Prelude.{◌≡◌, ◌<◌};
ghost use Rattle.energy_log.specs.Pair.{pair_of, put_pair};

pub fn pair_of(b: u8, j: usize) -> u8
    requires { j < 4 }
    ensures { result ≡ pair_of b j }
{
    (b >> (2 * j)) % 4
}

// The three other pairs stay.
pub fn put_pair(b: u8, j: usize, k: u8) -> u8
    requires { (j < 4) × (k < 4) }
    ensures { result ≡ put_pair b j k }
{
    let old = pair_of(b, j);
    b - (old << (2 * j)) + (k << (2 * j))
}
