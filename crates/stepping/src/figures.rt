// What a step finds for the branches, asked and written into the rows.
ghost use Rattle.std.specs.Prelude.{◌≡◌, ◌<◌, map, slice_index_or, slice_set};
ghost use Rattle.sheet.specs.Meanings.{meant_row};
ghost use Rattle.sheet.specs.declared.row.Row.{Row};
ghost use Rattle.stepping.specs.Steps.{Others, unsound_at, renewed_at, given};
ghost use Rattle.stories.specs.Assembly.{through};
ghost use Rattle.stories.specs.Networks.{any};
ghost use Rattle.stories.specs.Steps.{renewed};

use crate::framed::Framed;
use arithmetic::Arithmetic;
use linear::get;
use networks::{is_placed, members_of};
use sheet::{Plan, Row};

// A row with a new current and voltage.
fn renew<N: Copy>(rows: &mut [Row<N>; 32], k: usize, current: N, voltage: N)
    requires { k < 32 }
    ensures { (d : Row N) → rows.new ≡ slice_set rows.old k (renewed (slice_index_or rows.old k d) current voltage) }
{
    let row = rows[k];
    rows[k] = Row {
        current,
        voltage,
        ..row
    };
}

// The currents and voltages of all branches, by place. The currents are found from all the voltages, so a list of pairs
// would be made of these two lists. They are lent: as two arrays of a generic type, each call would owe a proof by the
// layout of the struct that it fits in memory.
#[derive(Clone, Copy)]
pub(crate) struct Figures<'a, N> {
    pub currents: &'a [N],
    pub voltages: &'a [N],
}

impl<'a, N: Arithmetic> Figures<'a, N> {
    // The branch k is placed and its current or its voltage is unsound.
    fn is_unsound(&self, plan: &Plan, k: u32) -> bool
        ensures { result ≡ unsound_at N.ops plan.now (map N.mean self.now.currents.now) (map N.mean self.now.voltages.now) k }
    {
        if !is_placed(plan, k) {
            return false;
        }
        let current = get(self.currents, k as usize);
        let voltage = get(self.voltages, k as usize);
        !(current.is_sound() & voltage.is_sound())
    }

    // Some placed branch has an unsound current or voltage.
    pub(crate) fn are_unsound(&self, framed: &Framed) -> bool
        ensures { result ≡ any (unsound_at N.ops framed.now.plan.now (map N.mean self.now.currents.now) (map N.mean self.now.voltages.now)) 32 }
    {
        for k in members_of(framed.placed()) {
            if self.is_unsound(framed.plan, k) {
                return true;
            }
        }
        false
    }

    // The row of the branch k with its new figures, if it is placed. A type for a place below 32 would be made by the
    // loop for this call and the one below it.
    fn renew_row(&self, plan: &Plan, rows: &mut [Row<N>; 32], k: u32)
        requires place { k < 32 }
        ensures rows { map (meant_row N.mean) rows.new ≡ renewed_at N.ops plan.now (map N.mean self.now.currents.now) (map N.mean self.now.voltages.now) k (map (meant_row N.mean) rows.old) }
        ensures gives { map given rows.new ≡ map given rows.old }
        ensures others { Others plan.now rows.old rows.new }
    {
        if !is_placed(plan, k) {
            return;
        }
        let current = get(self.currents, k as usize);
        let voltage = get(self.voltages, k as usize);
        renew(rows, k as usize, current, voltage);
    }

    // The rows of all placed branches with their new figures.
    pub(crate) fn renew_rows(&self, framed: &Framed, rows: &mut [Row<N>; 32])
        ensures rows { map (meant_row N.mean) rows.new ≡ through (renewed_at N.ops framed.now.plan.now (map N.mean self.now.currents.now) (map N.mean self.now.voltages.now)) 32 (map (meant_row N.mean) rows.old) }
        ensures gives { map given rows.new ≡ map given rows.old }
        ensures others { Others framed.now.plan.now rows.old rows.new }
    {
        for k in members_of(framed.placed()) {
            self.renew_row(framed.plan, rows, k);
        }
    }
}
