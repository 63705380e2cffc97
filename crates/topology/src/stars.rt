// The branches at each node, as words: a row across a set of nodes is put together from these, and not branch by branch.
ghost use Rattle.std.specs.Prelude.{◌≡◌, ℕ, ◌<◌};
ghost use Rattle.networks.specs.Networks.{graph_of, alike};
ghost use Rattle.topology.specs.Stars.{Star, StarsOf};
ghost use Rattle.networks.specs.Words.{bits, under};
ghost use Rattle.networks.specs.declared.network.Node.{Node};

use networks::{Labels, Node, either, head, insert_if, tail};
use sheet::Plan;

// The branches that leave each node, and those that enter it. One without a branch leaves and enters node 0.
#[derive(Clone, Copy)]
pub(crate) struct Stars {
    pub leaving: [u32; 16],
    pub entering: [u32; 16],
}

// The branches that end at each node, by what gives a branch's end.
fn star<F: Fn(u32) -> Node>(end: F) -> [u32; 16]
    requires { F.IsAlwaysCallable end }
    ensures { (e : ℕ → ℕ) → ((k : ℕ) (x : Node) → k < 32 → F.post end k x → x.number ≡ e k) → Star e 32 result }
{
    let mut words = [0; 16];
    for k in 0..32 {
        let node = end(k);
        words[node.number] = insert_if(words[node.number], k, true);
    }
    words
}

impl Stars {
    pub(crate) fn of(plan: &Plan) -> Stars
        ensures { StarsOf (graph_of plan.now) result.leaving result.entering }
    {
        Stars {
            leaving: star(|k| tail(plan, k)),
            entering: star(|k| head(plan, k)),
        }
    }
}

// The branches that end at the nodes with the label of one node.
pub(crate) fn reach(words: &[u32; 16], labels: &Labels, node: Node) -> u32
    ensures { (e : ℕ → ℕ) → ((k : ℕ) → e k < 16) → Star e 32 words.now → bits result ≡ under (λ k. alike labels.now.of node.number (e k)) 32 }
{
    let mut word = 0;
    for x in 0..16 {
        if labels.are_alike(node, Node { number: x }) {
            word = either(word, words[x]);
        }
    }
    word
}
