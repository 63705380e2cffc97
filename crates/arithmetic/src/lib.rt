// Numbers behind one interface, `Arithmetic`, and its two implementations: binary64 and remainders modulo 8,191.
// Each function answers the value that its operation gives on the meanings; specs/ has the operations and the laws.
#![tactic(auto)]

mod binary64;
mod interface;
mod residues;

pub use interface::{Arithmetic, LARGEST, may_divide};
pub use residues::remainder_of;
