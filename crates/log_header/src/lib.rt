// The header of a log, and its intervals: which bytes are a header and whether lent bytes are a log with it, the index of a day's slot, a day's
// date and its night, and the slots that do not exist.
#![tactic(auto)]

mod header;
mod interval;

pub use header::{
    CELLS_MOST, HEADER_BYTES, Header, IMAGE_MOST, VERSION, cells_of, header_of, is_header,
    length_of, mark_right, sound, version_at, write_header,
};
pub use interval::{date_of, exists, interval_of, missing_cells, night_on};
