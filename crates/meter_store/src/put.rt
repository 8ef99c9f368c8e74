// Slices, put into the store, and the store made empty.
ghost use Rattle.std.specs.Prelude.{◌≡◌, ◌*◌};
ghost use Rattle.byte_numbers.specs.Place.{written};
ghost use Rattle.meter_store.specs.Store.{row_bytes, place_bytes_of, put_store, put_next, cleared};

use crate::find::{PLACE_BYTES, PLACES};
use slots::Key;

// To the place of its key, or else to the next place in turn. Returns which place is next then: the same as before where a slice was
// replaced, and the first after the last.
#[tactic(auto, unfolding(crate::specs::Store::is_kept, crate::specs::Store::put_place, crate::specs::Store::put_store, crate::specs::Store::put_next))]
pub fn put_slice(store: &mut [u8], next: u16, k: Key, counts: [u16; 4]) -> u16
    ensures { (store.new ≡ put_store store.old next k counts) × (result ≡ put_next store.old next k) }
{
    let i = crate::find::place_of(store, k.month, k.day, k.number as u16);
    if i < PLACES {
        write_place(store, i, k, counts);
        return next;
    }
    write_place(store, next, k, counts);
    if next < PLACES - 1 { next + 1 } else { 0 }
}

// The eleven bytes of place i, as far as the store has it.
fn write_place(store: &mut [u8], i: u16, k: Key, counts: [u16; 4])
    ensures { store.new ≡ written store.old (11 * i) (place_bytes_of k counts) }
{
    let at = PLACE_BYTES * (i as usize);
    byte_numbers::put_byte(store, at, k.month);
    byte_numbers::put_byte(store, at + 1, k.day);
    byte_numbers::put_byte(store, at + 2, k.number);
    put_row(store, at + 3, counts);
}

// Four counts, lowest byte first, from a byte on.
pub fn put_row(out: &mut [u8], at: usize, counts: [u16; 4])
    ensures { out.new ≡ written out.old at (row_bytes counts) }
{
    if at < out.len() {
        byte_numbers::put_u16(out, at, counts[0]);
        byte_numbers::put_u16(out, at + 2, counts[1]);
        byte_numbers::put_u16(out, at + 4, counts[2]);
        byte_numbers::put_u16(out, at + 6, counts[3]);
    }
}

// Every place unused.
#[tactic(auto, unfolding(crate::specs::Store::cleared))]
pub fn clear(store: &mut [u8])
    ensures { store.new ≡ cleared store.old }
{
    store.fill(0);
}
