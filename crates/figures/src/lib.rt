// Readings and traces of voltages in binary64.
#![tactic(auto)]

mod readings;
mod takings;
mod trace;

pub use readings::{reading, reading_of};
pub use trace::Trace;
