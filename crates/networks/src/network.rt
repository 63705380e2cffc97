// A plan as a graph: the ends and the kinds of its branches.
ghost use Rattle.std.specs.Prelude.{◌≡◌, ◌<◌};
ghost use Rattle.graphs.specs.Greedy.{up_to, of_class};
ghost use Rattle.networks.specs.Networks.{kind_class, graph_of, placed, class_at, listed, among};
ghost use Rattle.networks.specs.Words.{bits};

use crate::words::numbers_where;
use sheet::{Kind, Plan};

// Trees are looked for by kind, in this order.
pub const ORDER: [Kind; 5] = [
    Kind::VoltageSource,
    Kind::Capacitor,
    Kind::Resistor,
    Kind::Inductor,
    Kind::CurrentSource,
];

// A node of a plan's graph.
#[derive(Clone, Copy)]
pub struct Node {
    pub number: usize,
    pub ghost within: { number < 16 },
}

// The node that a branch starts at; 0 where there is no branch. It differs from `head` in a field alone: to hand the field
// over would be longer than either.
pub fn tail(plan: &Plan, k: u32) -> Node
    ensures { result.number ≡ (graph_of plan.now).tail k }
{
    Node {
        number: plan.at(k).map_or(0, |branch| branch.ends.tail as usize),
    }
}

// The node that a branch ends at; 0 where there is no branch.
pub fn head(plan: &Plan, k: u32) -> Node
    ensures { result.number ≡ (graph_of plan.now).head k }
{
    Node {
        number: plan.at(k).map_or(0, |branch| branch.ends.head as usize),
    }
}

// A plan's own length is known to the sheet alone, so the bound is asked for here.
pub fn is_placed(plan: &Plan, k: u32) -> bool
    ensures { result ≡ placed plan.now k }
{
    k < 32 && plan.at(k).is_some()
}

// Whether a place holds a branch of the kind.
pub fn is_of_kind(plan: &Plan, kind: Kind, k: u32) -> bool
    ensures { result ≡ of_class (class_at plan.now) (kind_class kind) (placed plan.now) k }
{
    k < 32 && plan.at(k).is_some_and(|branch| branch.kind == kind)
}

// The branches of the kinds in a list.
pub fn branches_of(plan: &Plan, kinds: &[Kind]) -> u32
    ensures { bits result ≡ among (listed kinds.now) plan.now }
{
    numbers_where(|k| plan
        .at(k)
        .is_some_and(|branch| kinds.contains(&branch.kind)))
}

// The voltage sources.
pub fn voltage_sources(plan: &Plan) -> u32
    ensures { bits result ≡ up_to (class_at plan.now) 0 (placed plan.now) }
{
    branches_of(plan, &[Kind::VoltageSource])
}

// All branches but the current sources, which come last in the order.
pub fn no_current_sources(plan: &Plan) -> u32
    ensures { bits result ≡ up_to (class_at plan.now) 3 (placed plan.now) }
{
    branches_of(plan, &ORDER[..4])
}

// All branches.
pub fn placed_branches(plan: &Plan) -> u32
    ensures { bits result ≡ placed plan.now }
{
    numbers_where(|k| is_placed(plan, k))
}
