// The calls on a plan: its tree, loop rows, cut rows and incidence.
ghost use Rattle.std.specs.Prelude.{◌≡◌, ℕ};
ghost use Rattle.graphs.specs.Cuts.{incidence};
ghost use Rattle.graphs.specs.Groups.{Group};
ghost use Rattle.sheet.specs.Refusals.{told, granted};
ghost use Rattle.topology.specs.Matrices.{Matrices};
ghost use Rattle.topology.specs.Meanings.{TreeAnswer, LoopAnswer, CutAnswer, IncidenceAnswer};
ghost use Rattle.networks.specs.Networks.{graph_of};
ghost use Rattle.topology.specs.Rows.{sign_of};
ghost use Rattle.topology.specs.Trees.{tree_of, loop_of, cut_of, loop_row_of, cut_row_of};

use crate::keeping::kept_branches;
use crate::rows::{TreeRows, cut, cut_of_branch, difference};
use crate::sign::Sign;
use networks::{
    common, has, head, is_placed, less, lowest, no_current_sources, tail, voltage_sources,
};
use sheet::{Plan, Refusal, Shown};

// The tree. Refused by 12 with a loop of voltage sources, and by 13 with a cut of current sources.
pub fn tree(plan: &Plan) -> Result<u32, Refusal>
    ensures answer { told result ≡ tree_of plan.now }
    ensures meaning { TreeAnswer plan.now (told result) }
{
    let kept = kept_branches(plan);
    let voltages = voltage_sources(plan);
    let no_currents = no_current_sources(plan);
    if let Some(k) = lowest(less(voltages, kept)) {
        let rows = TreeRows::of(plan, common(kept, voltages));
        return Err(Refusal::VoltageLoop(rows.loop_along(k)));
    }
    if let Some(k) = lowest(less(kept, no_currents)) {
        return Err(Refusal::CurrentCut(cut(plan, no_currents, tail(plan, k))));
    }
    Ok(kept)
}

// The loop row of a link of the plan's tree. Refused as the tree is.
pub fn loop_row(plan: &Plan, number: u32) -> Result<Option<Shown>, Refusal>
    ensures answer { told result ≡ loop_row_of plan.now number }
    ensures meaning { LoopAnswer plan.now number (told result) }
{
    Ok(loop_of(plan, tree(plan)?, number))
}

// The cuts of the tree are worked out for a link alone.
fn loop_of(plan: &Plan, tree: u32, number: u32) -> Option<Shown>
    ensures { result ≡ loop_of plan.now tree number }
{
    if is_placed(plan, number) && !has(tree, number) {
        Some(TreeRows::of(plan, tree).loop_along(number))
    } else {
        None
    }
}

// The cut row of a branch of the plan's tree. Refused as the tree is.
pub fn cut_row(plan: &Plan, number: u32) -> Result<Option<Shown>, Refusal>
    ensures answer { told result ≡ cut_row_of plan.now number }
    ensures meaning { CutAnswer plan.now number (told result) }
{
    Ok(cut_of(plan, tree(plan)?, number))
}

// One cut is worked out, and not all of the tree's.
fn cut_of(plan: &Plan, tree: u32, number: u32) -> Option<Shown>
    ensures { result ≡ cut_of plan.now tree number }
{
    if has(tree, number) {
        Some(cut_of_branch(plan, tree, number))
    } else {
        None
    }
}

// Plus where the branch has its tail at the node, minus where it has its head there, else zero.
pub fn incidence(plan: &Plan, node: u32, branch: u32) -> Sign
    ensures answer { sign_of result ≡ incidence (graph_of plan.now) node branch }
    ensures meaning { IncidenceAnswer plan.now node branch (sign_of result) }
{
    let node = node as usize;
    let tail = tail(plan, branch);
    let head = head(plan, branch);
    difference(node == tail.number, node == head.number)
}

// The rows of a granted tree as matrices, summed in any abelian group on `N`.
pub fn row_laws<N>(plan: &Plan)
    ensures { (G : Group N) (w : ℕ) → tree_of plan.now ≡ granted w → Matrices G plan.now w }
{}
