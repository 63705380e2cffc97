// The places of a plan and the rows of a row table, read and written one at a time.
ghost use Rattle.std.specs.Prelude.{◌≡◌, ◌<◌, length, slice_index_or, slice_set};
ghost use Rattle.sheet.specs.Calls.{revalued};
ghost use Rattle.sheet.specs.declared.row.Row.{Row};
ghost use Rattle.sheet.specs.Plans.{empty_plan, branch_at, with_branch};

use crate::branch::Branch;
use crate::plan::Plan;
use crate::row::Row;

impl Plan {
    // No branch at any place.
    pub fn empty() -> Plan
        ensures { result ≡ empty_plan }
    {
        Plan { places: [None; 32] }
    }

    // The branch at that place; none above 31.
    pub fn at(&self, number: u32) -> Option<Branch>
        ensures { result ≡ branch_at self.now number }
    {
        *self.places.get(number as usize)?
    }

    pub(crate) fn put(&mut self, number: u32, branch: Option<Branch>)
        requires { number < 32 }
        ensures { self.new ≡ with_branch self.old number branch }
    {
        self.places[number as usize] = branch;
    }
}

pub(crate) fn put_row<N: Copy>(rows: &mut [Row<N>], number: u32, row: Row<N>)
    requires { number < length rows.old }
    ensures { rows.new ≡ slice_set rows.old number row }
{
    rows[number as usize] = row;
}

pub(crate) fn set_row_value<N: Copy>(rows: &mut [Row<N>], number: u32, value: N)
    requires { number < length rows.old }
    ensures { (d : Row N) → rows.new ≡ slice_set rows.old number (revalued (slice_index_or rows.old number d) value) }
{
    rows[number as usize].value = value;
}
