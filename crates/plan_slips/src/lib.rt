// The slip of a plan: its tree, and the loop row of every link.
#![tactic(auto)]

ghost use Rattle.plan_slips.specs.Own.{OwnSlip};

use sheet::{Plan, Refusal};
use slips::{SlipWriter, entries_of};
use topology::{TreeRows, tree};

#[cfg(test)]
mod tests;

// Writes the slip of a plan and answers the bytes used. Refused by 12 and 13, with the area left alone, and by 17.
pub fn write_plan_slip(area: &mut [u8], plan: &Plan) -> Result<usize, Refusal>
    ensures { OwnSlip plan.now area.old area.new result }
{
    let tree = tree(plan)?;
    let rows = TreeRows::of(plan, tree);
    let mut writer = SlipWriter::open(area, tree);
    for k in 0..32 {
        if let Some(row) = rows.loop_in(k) {
            writer.row(k, &entries_of(row))?;
        }
    }
    writer.seal()
}
