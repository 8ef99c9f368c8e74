// The place of a key.
ghost use Rattle.std.specs.Prelude.{◌≡◌, false, ◌+◌, ◌-◌, ◌<◌, ◌≤◌, length};
ghost use Rattle.meter_store.specs.Store.{places, store_bytes, key_of, key_at, same_key, first_from, place_of, is_day, NoneOfFour};

pub const PLACES: u16 = 2976;

pub const PLACE_BYTES: usize = 11;

pub const STORE_BYTES: usize = 32736;

// How many places a walk over a whole store looks at in a turn.
const TURN: u16 = 4;

const TURNS: u16 = PLACES / TURN;

// A number above a byte's is in no place.
const BYTE_VALUES: u16 = 256;

// The first place with a key, or PLACES where none has it. A number past 255, which the slices after a named one may reach, is in
// no place; so the parts of a key come one by one, and not as a `Key`, whose number is a byte.
#[tactic(auto, unfolding(crate::specs::Store::place_of))]
pub fn place_of(store: &[u8], month: u8, day: u8, number: u16) -> u16
    ensures { result ≡ place_of store.now (key_of month day number) }
{
    if store.len() == STORE_BYTES && number < BYTE_VALUES {
        return by_fours(store, month, day, number);
    }
    one_by_one(store, 0, PLACES, month, day, number)
}

// The walk over a whole store. Day and number together are rare, so four places are passed at a time where none has them.
fn by_fours(store: &[u8], month: u8, day: u8, number: u16) -> u16
    requires { (length store.now ≡ store_bytes) × (number < 256) }
    ensures { result ≡ place_of store.now (key_of month day number) }
{
    for turn in 0..TURNS {
        let i = TURN * turn;
        let found = in_four(store, i, month, day, number);
        if found < i + TURN {
            return found;
        }
    }
    PLACES
}

// The first of four places that has a key, or the one behind them.
fn in_four(store: &[u8], i: u16, month: u8, day: u8, number: u16) -> u16
    requires { (length store.now ≡ store_bytes) × (i + 4 ≤ places) × (number < 256) }
    ensures { result ≡ first_from store.now (key_of month day number) i 4 }
{
    if any_of_four(store, i, day, number) {
        return one_by_one(store, i, i + TURN, month, day, number);
    }
    i + TURN
}

// Whether one of the four places from i on has a day and a number.
#[tactic(auto, using(crate::proofs::FourLaws::day_misses, crate::proofs::FourLaws::four_miss))]
fn any_of_four(store: &[u8], i: u16, day: u8, number: u16) -> bool
    requires { (length store.now ≡ store_bytes) × (i + 4 ≤ places) × (number < 256) }
    ensures { result ≡ false → NoneOfFour store.now i day number }
{
    let at = PLACE_BYTES * (i as usize);
    is_day(store, at, day, number)
        || is_day(store, at + PLACE_BYTES, day, number)
        || is_day(store, at + 2 * PLACE_BYTES, day, number)
        || is_day(store, at + 3 * PLACE_BYTES, day, number)
}

// Whether the place whose bytes begin at a byte has a day and a number, by one comparison of the two.
#[tactic(auto, using(crate::proofs::FourLaws::two_bytes), unfolding(crate::specs::Store::is_day))]
fn is_day(store: &[u8], at: usize, day: u8, number: u16) -> bool
    requires { (at + 2 < length store.now) × (number < 256) }
    ensures { result ≡ is_day store.now at day number }
{
    let named = (store[at + 2] as u16) * BYTE_VALUES + (store[at + 1] as u16);
    named == number * BYTE_VALUES + (day as u16)
}

// The first of the places from one up to another that has a key, or the one behind them, by looking at each.
fn one_by_one(store: &[u8], from: u16, to: u16, month: u8, day: u8, number: u16) -> u16
    requires { from ≤ to }
    ensures { result ≡ first_from store.now (key_of month day number) from (to - from) }
{
    for i in from..to {
        if holds(store, i, month, day, number) {
            return i;
        }
    }
    to
}

// Whether place i has a key.
#[tactic(auto, unfolding(crate::specs::Store::same_key, crate::specs::Store::key_at))]
fn holds(store: &[u8], i: u16, month: u8, day: u8, number: u16) -> bool
    ensures { result ≡ same_key (key_at store.now i) (key_of month day number) }
{
    let at = PLACE_BYTES * (i as usize);
    // One test of the length for a whole key; the number differs most often, so it goes first.
    if at + 2 < store.len() {
        return store[at + 2] as u16 == number && store[at + 1] == day && store[at] == month;
    }
    byte_numbers::byte_at(store, at) == month
        && byte_numbers::byte_at(store, at + 1) == day
        && byte_numbers::byte_at(store, at + 2) as u16 == number
}
