// The theory of trees, loops and cuts: definitions in specs/, theorems in proofs/, and one function that states them together.
#![tactic(auto)]

ghost use Rattle.graphs.specs.Joint.{TheoryOfTrees};

// `N` is the carrier of the groups in which rows are summed.
pub fn theory_of_trees<N>()
    ensures { TheoryOfTrees N }
{}
