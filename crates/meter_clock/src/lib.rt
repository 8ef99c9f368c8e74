// What one second does to the bench meter: to protection, which returns after 240 quiet ones, and to the clock with its seasons.
//
// Both are values: a step takes what stands and gives what stands a second later. Every step is total, and keeps what fits. `tick` is
// protection's step in place, and `ticked` lends it the record; the meter's second goes that way.
#![tactic(auto)]

mod protection;
mod season;

pub use protection::{Level, Protection, is_protection, opened, quiet_second, shut, tick, ticked};
pub use season::{
    Season, SwitchDate, Time, is_fitting, is_switchable, next_time, summer_date, winter_date,
};
