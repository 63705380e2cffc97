// The branches of a plan's tree: what closes no loop, kind by kind, lower numbers first.
ghost use Rattle.std.specs.Prelude.{◌≡◌, ◌<◌};
ghost use Rattle.graphs.specs.Graph.{empty, with};
ghost use Rattle.graphs.specs.Greedy.{keep, kept, of_class, members};
ghost use Rattle.networks.specs.Networks.{kind_class, graph_of, placed, class_at, Labelled};
ghost use Rattle.topology.specs.Trees.{tree_set};
ghost use Rattle.networks.specs.Words.{bits};

use networks::{Labels, ORDER, head, insert_if, is_of_kind, tail};
use sheet::{Kind, Plan};

// Branches kept of a plan, with the labels of the nodes that they join: whether another closes a loop is asked of these.
#[derive(Clone, Copy)]
struct Kept<'a> {
    plan: &'a Plan,
    word: u32,
    labels: Labels,
    ghost joined: { Labelled (graph_of plan.now) (bits word) 32 labels.of },
}

impl<'a> Kept<'a> {
    fn none_of(plan: &'a Plan) -> Kept<'a>
        ensures plan { result.plan.now ≡ plan.now }
        ensures word { bits result.word ≡ empty }
    {
        Kept {
            plan,
            word: 0,
            labels: Labels::apart(),
        }
    }

    // The branch k besides, where it closes no loop. That k is below 32 is asked here: a type for it would be made by the
    // loop for this one call.
    fn offered(self, k: u32) -> Kept<'a>
        requires { k < 32 }
        ensures plan { result.plan.now ≡ self.entry.plan.now }
        ensures word { bits result.word ≡ keep (graph_of self.entry.plan.now) 32 (bits self.entry.word) k }
    {
        let tail = tail(self.plan, k);
        let head = head(self.plan, k);
        if self.labels.are_alike(tail, head) {
            return self;
        }
        let mut labels = self.labels;
        labels.join(tail, head);
        Kept {
            plan: self.plan,
            word: insert_if(self.word, k, true),
            labels,
        }
    }

    // What is kept of one kind besides what was kept before.
    fn swept(self, kind: Kind) -> Kept<'a>
        ensures plan { result.plan.now ≡ self.entry.plan.now }
        ensures word { bits result.word ≡ kept (graph_of self.entry.plan.now) 32 (members (of_class (class_at self.entry.plan.now) (kind_class kind) (placed self.entry.plan.now)) 32) (bits self.entry.word) }
    {
        let mut kept = self;
        for k in 0..32 {
            if is_of_kind(self.plan, kind, k) {
                kept = kept.offered(k);
            }
        }
        kept
    }
}

// What is kept of all five kinds.
pub(crate) fn kept_branches(plan: &Plan) -> u32
    ensures { bits result ≡ tree_set plan.now }
{
    let mut kept = Kept::none_of(plan);
    for kind in ORDER {
        kept = kept.swept(kind);
    }
    kept.word
}
