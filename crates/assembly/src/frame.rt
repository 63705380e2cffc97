// A plan's branches by their part in a step, and the cut row of each tree branch. Bit k of a word is place k.
ghost use Rattle.std.specs.Prelude.{◌≡◌};
ghost use Rattle.assembly.specs.Frames.{cut_at, FrameOf};

use networks::{less, no_current_sources, placed_branches, voltage_sources};
use sheet::{Plan, Shown};
use topology::TreeRows;

#[derive(Clone, Copy)]
pub struct Frame {
    // Resistors, inductors and capacitors; these and current sources; voltage sources.
    pub passive: u32,
    pub feeding: u32,
    pub fixed: u32,
    // Tree branches; those that are no voltage source; the placed branches outside the tree.
    pub tree: u32,
    pub unknown: u32,
    pub link: u32,
    // The cut row of each tree branch.
    pub cuts: [Shown; 32],
}

impl Frame {
    // The frame of a plan with its tree.
    pub fn of(plan: &Plan, tree: u32) -> Frame
        ensures { FrameOf plan.now tree result }
    {
        let fixed = voltage_sources(plan);
        let resting = no_current_sources(plan);
        let placed = placed_branches(plan);
        Frame {
            passive: less(resting, fixed),
            feeding: less(placed, fixed),
            fixed,
            tree,
            unknown: less(tree, fixed),
            link: less(placed, tree),
            cuts: TreeRows::of(plan, tree).cuts,
        }
    }

    // The cut row of a tree branch.
    pub fn cut(&self, t: u32) -> Shown
        ensures { result ≡ cut_at self.now t }
    {
        self.cuts.get(t as usize).copied().unwrap_or_default()
    }
}
