// The circuit that a key is printed of.
ghost use Rattle.std.specs.Prelude.{◌≡◌};
ghost use Rattle.sheet.specs.Refusals.{granted};
ghost use Rattle.topology.specs.Trees.{tree_of};

use crate::card_sheet::CardSheet;
use assembly::Frame;
use stepping::Framed;

// A sheet that was read from cards, with its tree.
#[derive(Drop)]
pub struct Circuit {
    pub sheet: CardSheet<f64>,
    pub tree: u32,
    pub ghost of_plan: { tree_of sheet.plan ≡ granted tree },
}

impl Circuit {
    // The plan with the frame of its tree: its rows are printed, and its step is taken, from this one.
    pub(crate) fn framed(&self) -> Framed<'_>
        ensures plan { result.plan.now ≡ self.now.sheet.plan }
        ensures tree { result.frame.tree ≡ self.now.tree }
    {
        Framed {
            plan: &self.sheet.plan,
            frame: Frame::of(&self.sheet.plan, self.tree),
        }
    }
}
