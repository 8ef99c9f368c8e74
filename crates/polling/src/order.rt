// The order in which the intervals of a day, and the days, are asked for.
ghost use Rattle.std.specs.Prelude.{◌≡◌};
ghost use Rattle.polling.specs.Order.{next_in_order, last_wanted, last_in, passed_with, day_in_order};
ghost use Rattle.energy_log.specs.Image.{cell_at};
ghost use Rattle.energy_log.specs.View.{view_of};

use crate::next;
use crate::next::Wanted;
use log_header::Header;
use slots::SLOTS_MOST;

#[derive(Clone, Copy)]
pub enum Order {
    OldestFirst,
    NewestFirst,
}

// The slot of a day that is asked for next where so many of the day's slots are passed: from the first of the day on, or from the last down.
#[tactic(auto, unfolding(crate::specs::Order::next_in_order))]
pub fn next_in_order(log: &[u8], day: u8, passed: u8, wanted: Wanted, order: Order) -> Option<u8>
    ensures { result ≡ next_in_order order wanted (view_of log.now) day passed }
{
    match order {
        Order::OldestFirst => next::next_wanted(log, day, passed, wanted),
        Order::NewestFirst => last_wanted(log, day, SLOTS_MOST.saturating_sub(passed), wanted),
    }
}

// The last slot of a day, before an end, that exists and whose cell is wanted. Bytes that are no log have none, and neither has a day
// outside it.
#[tactic(auto, unfolding(crate::specs::Order::last_wanted))]
fn last_wanted(log: &[u8], day: u8, end: u8, wanted: Wanted) -> Option<u8>
    ensures { result ≡ last_wanted wanted (view_of log.now) day end }
{
    let h = log_header::sound(log)?;
    last_in(log, h, day, end, wanted)
}

fn last_in(log: &[u8], h: Header, day: u8, end: u8, wanted: Wanted) -> Option<u8>
    ensures { result ≡ last_in wanted h (cell_at log.now) day end }
{
    // A loop, since std promises nothing of `find` over a range that runs down.
    for i in (0..end).rev() {
        if next::asks_for(log, h, day, i, wanted) {
            return Some(i);
        }
    }
    None
}

// How many slots of the day are passed with this one.
#[tactic(auto, unfolding(crate::specs::Order::passed_with))]
pub fn passed_with(order: Order, slot: u8) -> u8
    ensures { result ≡ passed_with order slot }
{
    if SLOTS_MOST <= slot {
        return SLOTS_MOST;
    }
    match order {
        Order::OldestFirst => slot + 1,
        Order::NewestFirst => SLOTS_MOST - slot,
    }
}

// The day whose turn it is among those from one on and before another, as many before it as there are before day k. A day that is none of
// them stays.
#[tactic(auto, unfolding(crate::specs::Order::day_in_order))]
pub fn day_in_order(order: Order, from: u8, end: u8, k: u8) -> u8
    ensures { result ≡ day_in_order order from end k }
{
    if k < from || end <= k {
        return k;
    }
    match order {
        Order::OldestFirst => k,
        Order::NewestFirst => from + (end - 1 - k),
    }
}
