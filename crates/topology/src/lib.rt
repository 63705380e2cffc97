// The tree of a plan, its loop and cut rows, its incidence, and the two refusals in a tree's way.
// Each call answers what a function of specs/Trees.antt says, refusals too; specs/Meanings.antt says what the answers
// mean in a graph's own words, and specs/Matrices.antt how the rows stand to incidence and to one another.
#![tactic(auto)]

mod calls;
mod keeping;
mod rows;
mod sign;
mod stars;

pub use calls::{cut_row, incidence, loop_row, row_laws, tree};
pub use rows::{TreeRows, cut_of_branch, sign_at};
pub use sign::Sign;
