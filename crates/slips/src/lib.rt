// Slips: a tree and rows packed as bits into a lent area of bytes.
#![tactic(auto)]

mod bits;
mod code;
mod counters;
mod row;
mod rows;
mod slip;
mod writer;

pub use code::entries_of;
pub use row::SlipRow;
pub use slip::write_slip;
pub use writer::SlipWriter;
