// The data of a reply to the bench meter's reads: a parameter's figures, from the record and the store, and how many bytes they are.
#![tactic(auto)]

mod reading;

pub use reading::{data_size, is_read, put_data};
