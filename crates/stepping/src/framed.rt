// What a step goes by once its plan has a tree.
ghost use Rattle.std.specs.Prelude.{◌≡◌};
ghost use Rattle.assembly.specs.Frames.{FrameOf};
ghost use Rattle.networks.specs.Networks.{placed};
ghost use Rattle.networks.specs.Words.{bits};
ghost use Rattle.sheet.specs.Refusals.{granted};
ghost use Rattle.topology.specs.Trees.{tree_of};

use assembly::Frame;
use networks::either;
use sheet::Plan;
use topology::TreeRows;

// A plan that has a tree, and the frame of both: a caller with many steps on one plan, or with a tree at hand, makes it once.
#[derive(Clone, Copy)]
pub struct Framed<'a> {
    pub plan: &'a Plan,
    pub frame: Frame,
    pub ghost tree: { tree_of plan.now ≡ granted frame.tree },
    pub ghost is: { FrameOf plan.now frame.tree frame },
}

impl<'a> Framed<'a> {
    // The placed branches: those that feed and the voltage sources.
    pub(crate) fn placed(&self) -> u32
        ensures { bits result ≡ placed self.now.plan.now }
    {
        either(self.frame.feeding, self.frame.fixed)
    }

    // The rows of the tree, whose cuts the frame has.
    pub fn rows(&self) -> TreeRows<'a>
        ensures plan { result.plan.now ≡ self.now.plan.now }
        ensures tree { result.tree ≡ self.now.frame.tree }
    {
        TreeRows {
            plan: self.plan,
            tree: self.frame.tree,
            cuts: self.frame.cuts,
        }
    }
}
