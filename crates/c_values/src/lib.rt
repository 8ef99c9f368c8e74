// Values as C holds them: the open ask as four lent bytes, the figures of a decoded reply as a row of 32-bit numbers.
#![tactic(auto)]

mod ask;
mod row;

pub use ask::{ASK_BYTES, ask_of, put_ask};
pub use row::{figures_for, put_figures};
