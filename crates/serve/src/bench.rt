// The meter that is served, as the script made it.
use mercury_bench::Meter;
use meter_record::Record;

#[derive(Clone, Copy)]
pub enum Bench {
    Meter(Record),
    // A Mercury 206.
    Mercury(Meter),
}
