// The bench meter's record as 89 lent bytes: how firmware that cannot hold a Rattle value keeps it between calls.
//
// Each thing of the record has its place and its width; numbers of several bytes stand lowest byte first, figures as the wire has
// them. What was written reads back as it was. Bytes of another length, or with a level, a season, a choice of date or a power that
// there is not, are no record. Whether a record that is read keeps its ranges, `meter_record` says.
#![tactic(auto)]

mod level;
mod record;
mod time;

pub use record::{RECORD_BYTES, put_record, record_of};
pub use time::season_of;
