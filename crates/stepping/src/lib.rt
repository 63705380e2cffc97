// One time step of a sheet, and the theorem of stories on its contract. specs/Calls.antt says what `step` answers and
// leaves, specs/ of the crate `stories` what a step, a story and the theorem are.
#![tactic(auto)]

mod area;
mod calls;
mod companion;
mod figures;
mod framed;
mod telling;

pub use calls::step;
pub use framed::Framed;
pub use telling::calls_tell_stories;
