// A look at a placed branch.
ghost use Rattle.std.specs.Prelude.{◌≡◌};
ghost use Rattle.sheet.specs.Looks.{seen};

use crate::calls::check_place;
use crate::kind::Kind;
use crate::plan::Plan;
use crate::row::Row;
use arithmetic::Arithmetic;

// A branch as a look shows it: its kind, its ends and the four values of its row, plain, since callers take it apart.
#[derive(Clone, Copy)]
pub struct Look<N> {
    pub kind: Kind,
    pub tail: u8,
    pub head: u8,
    pub value: N,
    pub start: N,
    pub current: N,
    pub voltage: N,
}

impl Plan {
    // The branch at that place with its row; none at an empty place, above 31, or with a row table of another length.
    pub fn look<N: Arithmetic>(&self, rows: &[Row<N>], number: u32) -> Option<Look<N>>
        ensures { result ≡ seen N.nil self.now rows.now number }
    {
        check_place(rows.len(), number).ok()?;
        let branch = self.at(number)?;
        let row = rows[number as usize];
        Some(Look {
            kind: branch.kind,
            tail: branch.ends.tail,
            head: branch.ends.head,
            value: row.value,
            start: row.start,
            current: row.current,
            voltage: row.voltage,
        })
    }
}
