// A plan as a graph: its nodes, the ends and kinds of its branches, and which nodes some branches join. Sets of branches
// are words.
// Each function answers what a definition of specs/Networks.antt or specs/Words.antt says, for any number.
#![tactic(auto)]

mod ascending;
mod labels;
mod network;
mod words;

pub use ascending::{Members, members_of};
pub use labels::Labels;
pub use network::{
    Node, ORDER, branches_of, head, is_of_kind, is_placed, no_current_sources, placed_branches,
    tail, voltage_sources,
};
pub use words::{common, either, has, insert_if, less, lowest, remove};
