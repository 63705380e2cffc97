// The theory of one time step of a circuit and of stories of calls: definitions in specs/, theorems in proofs/.
#![tactic(auto)]

ghost use Rattle.std.specs.Prelude.{T};
ghost use Rattle.stories.specs.Called.{CallShows};
ghost use Rattle.stories.specs.Theorem.{BestTrees, AnyArea, TreesOfStories, TheoremOfStories, TreesShowing, TheoremShowing};

use arithmetic::Arithmetic;

// Of every plan: no voltage source is left out of the tree that is kept and no current source is in it exactly if some
// tree has every voltage source and no current source; the tree that is kept is then the best of these.
pub fn best_trees()
    ensures { BestTrees }
{}

// In every arithmetic, by its definition, a step finds the same whatever stands in its area besides the rows of its system.
pub fn areas_of_steps<N: Arithmetic>()
    ensures { AnyArea N.ops }
{}

// In every arithmetic, after every story: a step meets neither 12 nor 13 exactly if some tree has every voltage source
// and no current source; the tree that the tree's call then grants, and the one that is kept, is the best of these. Of
// the calls that show something at 12 and 13 the tree's call is one.
pub fn trees_of_stories<N: Arithmetic>()
    ensures by_call { TreesOfStories N.ops }
    ensures showing { TreesShowing N.ops }
    ensures call_shows { CallShows }
{}

// In an exact arithmetic, after every story: a step is granted exactly if only the zero list is dead, and its rows are
// then the one live list; the trees; and the sums of charge and flux.
pub fn theorem_of_stories<N: Arithmetic>()
    ensures by_call { T N.EXACT → TheoremOfStories N.ops }
    ensures showing { T N.EXACT → TheoremShowing N.ops }
{}
