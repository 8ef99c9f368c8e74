// Slices, read by their keys.
ghost use Rattle.std.specs.Prelude.{◌≡◌};
ghost use Rattle.meter_store.specs.Store.{key_of, row_at, slice_of, six_of};

use crate::find::{PLACE_BYTES, PLACES};
use slots::Key;

pub fn slice_of(store: &[u8], k: Key) -> [u16; 4]
    ensures { result ≡ slice_of store.now k }
{
    named(store, k.month, k.day, k.number as u16)
}

// The named slice and the five after it.
#[tactic(auto, unfolding(crate::specs::Store::six_of))]
pub fn six_of(store: &[u8], k: Key) -> [[u16; 4]; 6]
    ensures { result ≡ six_of store.now k }
{
    let number = k.number as u16;
    [
        named(store, k.month, k.day, number),
        named(store, k.month, k.day, number + 1),
        named(store, k.month, k.day, number + 2),
        named(store, k.month, k.day, number + 3),
        named(store, k.month, k.day, number + 4),
        named(store, k.month, k.day, number + 5),
    ]
}

#[tactic(auto, unfolding(crate::specs::Store::slice_of, crate::specs::Store::is_kept))]
fn named(store: &[u8], month: u8, day: u8, number: u16) -> [u16; 4]
    ensures { result ≡ slice_of store.now (key_of month day number) }
{
    let i = crate::find::place_of(store, month, day, number);
    if i < PLACES {
        return row_at(store, i);
    }
    [0, 0, 0, 0]
}

// The counts at place i.
#[tactic(auto, unfolding(crate::specs::Store::row_at))]
fn row_at(store: &[u8], i: u16) -> [u16; 4]
    ensures { result ≡ row_at store.now i }
{
    let at = PLACE_BYTES * (i as usize);
    [
        byte_numbers::u16_at(store, at + 3),
        byte_numbers::u16_at(store, at + 5),
        byte_numbers::u16_at(store, at + 7),
        byte_numbers::u16_at(store, at + 9),
    ]
}
