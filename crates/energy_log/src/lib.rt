// The log of slices as it stands in memory, its image: fourteen bytes of header, and behind them the kinds of all cells at two bits each, a
// column for each of their counts, and their lapses. It reads and writes single cells, steps along its intervals in time order, and makes a fresh log.
// Other crates speak of a log by these functions and their definitions alone, so that a change of the layout stays in here.
#![tactic(auto)]

mod fresh;
mod image;
mod look;
mod pair;
mod walk;

pub use fresh::{FreshError, fresh_log};
pub use image::{
    Change, apply, cell_among, cell_at, cells_at, lapses_among, lapses_at, put_cell,
    put_cell_among, put_lapses, put_lapses_among,
};
pub use look::{
    e_minus_among, e_plus_among, is_good_among, kind_among, r_minus_among, r_plus_among,
};
pub use walk::{Walk, index_of, next, walk_day};

#[cfg(test)]
mod tests;
