// A cell of the log: a gap, empty, or measured with four counts; its kind, its counts, and the nine bytes that it is in a file.
#![tactic(auto)]

mod cell;

pub use cell::{
    COUNTS_BYTES, Cell, cell_of, e_minus, e_plus, kind_cell, kind_fits, kind_of, no_counts,
    r_minus, r_plus, write_kind,
};
