// Labels: the least node that the branches of a word join with each node.
ghost use Rattle.std.specs.Prelude.{◌≡◌, map, slice_index};
ghost use Rattle.std.specs.List.{range_with_len};
ghost use Rattle.graphs.specs.Labels.{merge};
ghost use Rattle.networks.specs.Networks.{graph_of, Labelled, alike};
ghost use Rattle.networks.specs.Words.{bits};

use crate::ascending::members_of;
use crate::network::{Node, head, tail};
use sheet::Plan;

// A label of each node.
#[derive(Clone, Copy)]
pub struct Labels {
    pub of: [u8; 16],
}

// A label once p and q have become the smaller of the two.
fn merged(p: u8, q: u8, label: u8) -> u8
    ensures { result ≡ merge p q label }
{
    if label == p.max(q) { p.min(q) } else { label }
}

impl Labels {
    // Each node alone.
    pub fn apart() -> Labels
        ensures { result.of ≡ range_with_len 0 16 }
    {
        Labels {
            of: [0, 1, 2, 3, 4, 5, 6, 7, 8, 9, 10, 11, 12, 13, 14, 15],
        }
    }

    // The least node that the branches of the word join each node with.
    pub fn joined(plan: &Plan, word: u32) -> Labels
        ensures { Labelled (graph_of plan.now) (bits word) 32 result.of }
    {
        let mut labels = Labels::apart();
        for k in members_of(word) {
            labels.join(tail(plan, k), head(plan, k));
        }
        labels
    }

    // The labels of the two nodes become the smaller of the two.
    pub fn join(&mut self, a: Node, b: Node)
        ensures { self.new.of ≡ map (merge (slice_index self.old.of a.number) (slice_index self.old.of b.number)) self.old.of }
    {
        let p = self.of[a.number];
        let q = self.of[b.number];
        for label in self.of.iter_mut() {
            *label = merged(p, q, *label);
        }
    }

    // The two nodes have one label.
    pub fn are_alike(&self, a: Node, b: Node) -> bool
        ensures { result ≡ alike self.now.of a.number b.number }
    {
        self.of[a.number] == self.of[b.number]
    }
}
