// A sheet: a plan of branches, and the rows that a caller lends. Each call answers, and leaves in plan and rows, what
// one function says: `outcome` in specs/Calls.antt. `means` in specs/Refusals.antt has the refusals' numbers.
#![tactic(auto)]

mod admission;
mod branch;
mod calls;
mod ends;
mod kind;
mod look;
mod placement;
mod places;
mod plan;
mod refusal;
mod row;

pub use branch::Branch;
pub use calls::check_place;
pub use ends::Ends;
pub use kind::Kind;
pub use look::Look;
pub use placement::Placement;
pub use plan::Plan;
pub use refusal::{Refusal, Shown};
pub use row::{Row, fresh_rows};
