// The calls on a sheet: blank, place, lift and set. Clause `does` is on values, and `story` on what they mean.
ghost use Rattle.std.specs.Prelude.{◌≡◌, map};
ghost use Rattle.sheet.specs.Calls.{valued, on_place, blank, place, lift, set_value, Does};
ghost use Rattle.sheet.specs.Meanings.{meanings, meant_row, meant_call};
ghost use Rattle.sheet.specs.Refusals.{told, verdict, granted};

use crate::admission::{admit, takes_value};
use crate::placement::Placement;
use crate::places::{put_row, set_row_value};
use crate::plan::Plan;
use crate::refusal::Refusal;
use crate::row::{Row, fresh_rows};
use arithmetic::Arithmetic;

// 1 for a row table of another length, 2 for a number above 31.
pub fn check_place(rows: usize, number: u32) -> Result<(), Refusal>
    ensures { told result ≡ on_place rows number (granted tt) }
{
    if rows != 32 {
        return Err(Refusal::WrongLength);
    }
    if number > 31 {
        return Err(Refusal::NoSuchPlace);
    }
    Ok(())
}

// The caller lends the rows beside the plan, which owns no memory of the arithmetic.
impl Plan {
    // Empties the plan and makes every row zero. Refused by 1.
    pub fn blank<N: Arithmetic>(&mut self, rows: &mut [Row<N>]) -> Result<(), Refusal>
        ensures does { Does (valued N.ops N.mean N.nil) blank self.old rows.old (verdict result) self.new rows.new }
        ensures story { Does (meanings N.ops) (meant_call N.mean blank) self.old (map (meant_row N.mean) rows.old) (verdict result) self.new (map (meant_row N.mean) rows.new) }
    {
        if rows.len() != 32 {
            return Err(Refusal::WrongLength);
        }
        *self = Plan::empty();
        rows.copy_from_slice(&fresh_rows());
        Ok(())
    }

    // Puts a branch on an empty place, with its first row. Refused by 1, 2, 3 and 5 to 9.
    pub fn place<N: Arithmetic>(
        &mut self,
        rows: &mut [Row<N>],
        placement: Placement<N>,
    ) -> Result<(), Refusal>
        ensures does { Does (valued N.ops N.mean N.nil) (place placement) self.old rows.old (verdict result) self.new rows.new }
        ensures story { Does (meanings N.ops) (meant_call N.mean (place placement)) self.old (map (meant_row N.mean) rows.old) (verdict result) self.new (map (meant_row N.mean) rows.new) }
    {
        let number = placement.number;
        check_place(rows.len(), number)?;
        if self.at(number).is_some() {
            return Err(Refusal::PlaceTaken);
        }
        let (branch, row) = admit(placement)?;
        self.put(number, Some(branch));
        put_row(rows, number, row);
        Ok(())
    }

    // Empties a place and makes its row zero. Refused by 1, 2 and 4.
    pub fn lift<N: Arithmetic>(&mut self, rows: &mut [Row<N>], number: u32) -> Result<(), Refusal>
        ensures does { Does (valued N.ops N.mean N.nil) (lift number) self.old rows.old (verdict result) self.new rows.new }
        ensures story { Does (meanings N.ops) (meant_call N.mean (lift number)) self.old (map (meant_row N.mean) rows.old) (verdict result) self.new (map (meant_row N.mean) rows.new) }
    {
        check_place(rows.len(), number)?;
        if self.at(number).is_none() {
            return Err(Refusal::PlaceEmpty);
        }
        self.put(number, None);
        put_row(rows, number, Row::zero());
        Ok(())
    }

    // Gives a voltage or current source a new value; its current and voltage stay. Refused by 1, 2, 4, 10 and 8.
    pub fn set<N: Arithmetic>(
        &mut self,
        rows: &mut [Row<N>],
        number: u32,
        value: N,
    ) -> Result<(), Refusal>
        ensures does { Does (valued N.ops N.mean N.nil) (set_value number value) self.old rows.old (verdict result) self.new rows.new }
        ensures story { Does (meanings N.ops) (meant_call N.mean (set_value number value)) self.old (map (meant_row N.mean) rows.old) (verdict result) self.new (map (meant_row N.mean) rows.new) }
    {
        check_place(rows.len(), number)?;
        let branch = self.at(number).ok_or(Refusal::PlaceEmpty)?;
        if !branch.kind.is_source() {
            return Err(Refusal::NotASource);
        }
        if !takes_value(branch.kind, value) {
            return Err(Refusal::BadValue);
        }
        set_row_value(rows, number, value);
        Ok(())
    }
}
