// The linear system of one time step, written into a lent area, and the currents and voltages that its solution gives.
// All of it rests on conductances, feeds and cut rows alone, never on the rule that made them. docs/STEP.md has the
// sums, specs/Frames.antt what the code reads them from.
#![tactic(auto)]

mod figures;
mod frame;
mod gathering;
mod rows;
mod setting;
mod system;
mod values;

pub use frame::Frame;
pub use linear::{get, put};
pub use setting::Setting;
pub use system::assemble;
