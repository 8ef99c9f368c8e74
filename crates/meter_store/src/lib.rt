// The bench meter's store of slices: 2,976 places of eleven bytes, each with a key and four counts, in one lent array. A slice is
// read by its key, alone or with the five after it; one that is put replaces the slice of the same key or goes to the next place in
// turn, which the caller keeps. A place past the end of a short store reads as zeros and takes nothing.
#![tactic(auto)]

mod find;
mod put;
mod read;

pub use find::{PLACES, STORE_BYTES};
pub use put::{clear, put_row, put_slice};
pub use read::{six_of, slice_of};
