// The figures that the meter's parameters hold, and their bytes in a frame's data part.
//
// Each kind of figure is read from the front of a data part, and written to the front of one; what was written reads back as it
// was. The bench meter writes and the reader reads through these same definitions.
#![tactic(auto)]

mod clock;
mod displayed;
mod mask;
mod power;
mod row;
mod telemetry;

pub use clock::{date_time_of, put_date_time};
pub use displayed::{Energies, KilowattHours, energies_of, put_energies};
pub use mask::{DisplayMask, display_mask, put_display_mask};
pub use power::{
    Phases, Powers, bits_of, phases_of, power_of, powers_of, put_phases, put_power, put_powers,
};
pub use row::{Row, row_at, row_of};
pub use telemetry::{Telemetry, put_telemetry, telemetry_of};
