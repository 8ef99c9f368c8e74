ghost use Rattle.std.specs.Prelude.{◌≡◌};
ghost use Rattle.frame.specs.Sealing.{sealed, crc_fits, is_sealed};

use crate::layout::{CRC_BYTES, LONGEST, SHORTEST};

// Puts the CRC of the first n bytes behind them, as far as there is room.
#[tactic(auto, unfolding(crate::specs::Sealing::sealed))]
pub fn seal(out: &mut [u8], n: usize)
    ensures { out.new ≡ sealed out.old n }
{
    if n < out.len() {
        let crc = crc16::crc16(&out[..n]);
        byte_numbers::put_u16(out, n, crc);
    }
}

// Whether the last two bytes are the CRC of all bytes before them.
#[tactic(auto, unfolding(crate::specs::Sealing::crc_fits))]
pub fn crc_fits(frame: &[u8]) -> bool
    ensures { result ≡ crc_fits frame.now }
{
    if frame.len() < CRC_BYTES {
        return false;
    }
    let n = frame.len() - CRC_BYTES;
    byte_numbers::u16_at(frame, n) == crc16::crc16(&frame[..n])
}

// Whether the bytes are a frame: of a frame's length, and with its CRC right.
#[tactic(auto, unfolding(crate::specs::Sealing::is_sealed))]
pub fn is_sealed(frame: &[u8]) -> bool
    ensures { result ≡ is_sealed frame.now }
{
    SHORTEST <= frame.len() && frame.len() <= LONGEST && crc_fits(frame)
}
