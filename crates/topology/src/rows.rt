// Rows of signs: cuts of nodes, and loops along a branch.
ghost use Rattle.std.specs.Prelude.{◌≡◌, ℕ, ◌<◌, false, slice_index_or};
ghost use Rattle.graphs.specs.Cuts.{diff, cut_row, loop_row};
ghost use Rattle.graphs.specs.Graph.{Set, none};
ghost use Rattle.graphs.specs.Graph as graphs;
ghost use Rattle.topology.specs.Matrices.{entry};
ghost use Rattle.networks.specs.Networks.{graph_of};
ghost use Rattle.topology.specs.Stars.{StarsOf};
ghost use Rattle.topology.specs.declared.sign.Sign.{Sign};
ghost use Rattle.topology.specs.Rows.{sign_of, nothing, shown, cut_from};
ghost use Rattle.sheet.specs.Refusals.{granted};
ghost use Rattle.topology.specs.Meanings.{LoopAnswer, CutAnswer};
ghost use Rattle.topology.specs.Trees.{tree_of, loop_of, cut_of, cut_at_place, CutsOf};
ghost use Rattle.networks.specs.Words.{bits, under};

use crate::sign::Sign;
use crate::stars::{Stars, reach};
use networks::{Labels, Node, either, has, insert_if, is_placed, less, members_of, remove, tail};
use sheet::{Plan, Shown};
use std::array::from_fn;

// Plus for the first alone, minus for the second alone.
pub(crate) fn difference(first: bool, second: bool) -> Sign
    ensures { sign_of result ≡ diff first second }
{
    match (first, second) {
        (true, false) => Sign::Plus,
        (false, true) => Sign::Minus,
        (true, true) | (false, false) => Sign::Zero,
    }
}

// The row with the sign that is given for each member of a word, and no sign at another place.
fn row_of<F: Fn(u32) -> Sign>(members: u32, sign: F) -> Shown
    requires { F.IsAlwaysCallable sign }
    ensures { (f : ℕ → graphs.Sign) →
        ((k : ℕ) (x : Sign) → k < 32 → F.post sign k x → sign_of x ≡ f k) →
        ((k : ℕ) → k < 32 → bits members k ≡ false → f k ≡ none) →
        result ≡ shown f }
{
    let mut row = Shown::default();
    for k in members_of(members) {
        let sign = sign(k);
        row.members = insert_if(row.members, k, sign != Sign::Zero);
        row.against = insert_if(row.against, k, sign == Sign::Minus);
    }
    row
}

// The sign of a place in a row.
pub fn sign_at(row: Shown, k: u32) -> Sign
    ensures { sign_of result ≡ entry row k }
{
    if has(row.against, k) {
        Sign::Minus
    } else if has(row.members, k) {
        Sign::Plus
    } else {
        Sign::Zero
    }
}

// The row of the branches that leave a set of nodes and do not enter it, and of those that enter it alone.
fn across(leaving: u32, entering: u32) -> Shown
    ensures { (a b : Set) → bits leaving ≡ under a 32 → bits entering ≡ under b 32 → result ≡ shown (λ k. diff (a k) (b k)) }
{
    let against = less(entering, leaving);
    Shown {
        members: either(less(leaving, entering), against),
        against,
    }
}

// The cut of the nodes that the branches of the word join with one node. The branches at each node are handed over, since
// a caller may want many cuts.
fn cut_at(plan: &Plan, stars: &Stars, word: u32, node: Node) -> Shown
    ensures { StarsOf (graph_of plan.now) stars.now.leaving stars.now.entering → result ≡ cut_from (graph_of plan.now) (bits word) node.number }
{
    let labels = Labels::joined(plan, word);
    across(
        reach(&stars.leaving, &labels, node),
        reach(&stars.entering, &labels, node),
    )
}

// The same for a single cut.
pub(crate) fn cut(plan: &Plan, word: u32, node: Node) -> Shown
    ensures { result ≡ cut_from (graph_of plan.now) (bits word) node.number }
{
    cut_at(plan, &Stars::of(plan), word, node)
}

// The cut row of a branch t of the tree: the cut of the tail's side when t is taken out. For a caller that has the tree and
// wants one row; `TreeRows` works out all. Any set of branches may stand for the tree, and any branch for t.
pub fn cut_of_branch(plan: &Plan, tree: u32, t: u32) -> Shown
    ensures { result ≡ shown (cut_row (graph_of plan.now) (bits tree) 32 t) }
{
    cut(plan, remove(tree, t), tail(plan, t))
}

// The cut row of a member t of the word: the cut of the tail's side when t is taken out. No member for another number.
fn cut_if(plan: &Plan, stars: &Stars, word: u32, t: u32) -> Shown
    ensures { StarsOf (graph_of plan.now) stars.now.leaving stars.now.entering → result ≡ cut_at_place plan.now word t }
{
    if has(word, t) {
        cut_at(plan, stars, remove(word, t), tail(plan, t))
    } else {
        Shown::default()
    }
}

// The cut rows of the members of a word, each worked out once.
fn cuts_of(plan: &Plan, word: u32) -> [Shown; 32]
    ensures { CutsOf plan.now word result }
{
    let stars = Stars::of(plan);
    from_fn(|t| cut_if(plan, &stars, word, t as u32))
}

// The cut rows of a tree by place; its loop rows are read off them. Any set of branches may stand for the tree.
#[derive(Clone, Copy)]
pub struct TreeRows<'a> {
    pub plan: &'a Plan,
    pub tree: u32,
    pub cuts: [Shown; 32],
    pub ghost are: { CutsOf plan.now tree cuts },
}

impl<'a> TreeRows<'a> {
    pub fn of(plan: &'a Plan, tree: u32) -> TreeRows<'a>
        ensures plan { result.plan.now ≡ plan.now }
        ensures tree { result.tree ≡ tree }
    {
        TreeRows {
            plan,
            tree,
            cuts: cuts_of(plan, tree),
        }
    }

    // What stands at a place: the cut row of a branch of the tree, no row for another number.
    pub fn cut(&self, t: u32) -> Shown
        ensures { result ≡ slice_index_or self.now.cuts t nothing }
    {
        self.cuts.get(t as usize).copied().unwrap_or_default()
    }

    // How the loop of the branch k passes the branch j: against those whose cut k leaves.
    fn passes(&self, k: u32, j: u32) -> Sign
        requires { k < 32 }
        ensures { sign_of result ≡ loop_row (graph_of self.now.plan.now) (bits self.now.tree) 32 k j }
    {
        if j == k {
            return Sign::Plus;
        }
        if !has(self.tree, j) {
            return Sign::Zero;
        }
        -sign_at(self.cut(j), k)
    }

    // The loop of the branch k with branches of the tree, run along k.
    pub(crate) fn loop_along(&self, k: u32) -> Shown
        requires { k < 32 }
        ensures { result ≡ shown (loop_row (graph_of self.now.plan.now) (bits self.now.tree) 32 k) }
    {
        row_of(insert_if(self.tree, k, true), |j| self.passes(k, j))
    }

    // The loop row of a link, a placed branch outside the tree; none for another number.
    pub fn loop_in(&self, number: u32) -> Option<Shown>
        ensures answer { result ≡ loop_of self.now.plan.now self.now.tree number }
        ensures meaning { tree_of self.now.plan.now ≡ granted self.now.tree → LoopAnswer self.now.plan.now number (granted result) }
    {
        if is_placed(self.plan, number) && !has(self.tree, number) {
            Some(self.loop_along(number))
        } else {
            None
        }
    }

    // The cut row of a branch of the tree; none for another number.
    pub fn cut_in(&self, number: u32) -> Option<Shown>
        ensures answer { result ≡ cut_of self.now.plan.now self.now.tree number }
        ensures meaning { tree_of self.now.plan.now ≡ granted self.now.tree → CutAnswer self.now.plan.now number (granted result) }
    {
        if has(self.tree, number) {
            Some(self.cut(number))
        } else {
            None
        }
    }
}
