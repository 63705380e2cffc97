// The writer of a slip.
ghost use Rattle.std.specs.Prelude.{◌≡◌, ◌≤◌, [], length, MatchResult};
ghost use Rattle.sheet.specs.Refusals.{told, verdict};
ghost use Rattle.slips.specs.Slips.{Slip};
ghost use Rattle.slips.specs.Writing.{opened, blanked, row_answer, seal_answer, Blank, Past, Given, Holds, with_row, ReadsBack};

use crate::bits::{blank_area, open_area};
use crate::counters::Counters;
use crate::rows::{is_row, put_row};
use sheet::Refusal;

// A slip that is not sealed: sealing takes the writer apart.
pub struct SlipWriter<'a> {
    area: &'a mut [u8],
    counters: Counters,
}

impl SlipWriter<'_> {
    // Zeroes 280 bytes and writes the tree. A shorter area is left as it is.
    pub fn open<'a>(area: &'a mut [u8], tree: u32) -> SlipWriter<'a>
        ensures lender { result.area.ghost_name ≡ area.entry.ghost_name }
        ensures area { result.area.now ≡ opened tree area.old }
        ensures place { result.counters.at ≡ 32 }
        ensures next { result.counters.next ≡ 0 }
        ensures past { Past area.old result.area.now }
        ensures holds { 280 ≤ length area.old → Holds (record { tree = tree; rows = [] }) result.area.now result.counters.at result.counters.next }
    {
        open_area(area, tree);
        let counters = Counters { at: 32, next: 0 };
        SlipWriter { area, counters }
    }

    // Adds a row. Refused by 16 and 17.
    pub fn row(&mut self, number: u32, entries: &[i8]) -> Result<(), Refusal>
        ensures lender { self.new.area.ghost_name ≡ self.old.area.ghost_name }
        ensures lengths { length self.new.area.now ≡ length self.old.area.now }
        ensures does { Given self.old.area.now self.old.counters.at self.old.counters.next number entries.now (verdict result) self.new.area.now self.new.counters.at self.new.counters.next }
        ensures past { Past self.old.area.now self.new.area.now }
        ensures holds { (s : Slip) → Holds s self.old.area.now self.old.counters.at self.old.counters.next → Holds (with_row (row_answer (length self.old.area.now) self.old.counters.next number entries.now) s number entries.now) self.new.area.now self.new.counters.at self.new.counters.next }
    {
        let Counters { at, next } = self.counters;
        if !is_row(next, number, entries) {
            return Err(Refusal::BadSlipRow);
        }
        put_row(self.area, at, number, entries)?;
        self.counters = Counters {
            at: at + 69,
            next: number + 1,
        };
        Ok(())
    }

    // Ends the slip, and answers the bytes used. Refused by 17.
    pub fn seal(self) -> Result<usize, Refusal>
        ensures answers { told result ≡ seal_answer (length self.entry.area.now) self.entry.counters.at }
        ensures area { self.exit.0.now ≡ self.entry.area.now }
        ensures reads_back { (s : Slip) → Holds s self.entry.area.now self.entry.counters.at self.entry.counters.next → MatchResult result (ReadsBack s self.exit.0.now) (λ _. ⊥) }
    {
        let SlipWriter { area, counters } = self;
        if area.len() < 280 {
            return Err(Refusal::SlipAreaShort);
        }
        Ok(counters.at.div_ceil(8))
    }
}

impl Drop for SlipWriter<'_> {
    // Blanks the area: the slip was not sealed.
    fn drop(self)
        ensures zeros { 280 ≤ length self.entry.area.now → Blank self.exit.0.now }
        ensures past { Past self.entry.area.now self.exit.0.now }
        ensures area { self.exit.0.now ≡ blanked self.entry.area.now }
    {
        let SlipWriter { area, counters: _ } = self;
        blank_area(area);
    }
}
