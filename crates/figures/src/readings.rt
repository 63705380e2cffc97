// Readings of voltages in whole thousandths.
ghost use Rattle.std.specs.Prelude.{◌≡◌};
ghost use Rattle.std.specs.Float.{round_with, binary64};
ghost use Rattle.sheet.specs.Refusals.{told};
ghost use Rattle.figures.specs.Readings.{thousandths, nearest_whole, reading_of, Reads, reading_at};

use sheet::{Plan, Refusal, Row, check_place};
use std::num::saturating_f64_to_i32;

// Readings stay below it either way.
const LIMIT: f64 = 1e9;

// The nearest whole number, a half away from zero.
fn nearest(x: f64) -> f64
    ensures { result ≡ round_with nearest_whole nearest_whole binary64 x }
{
    x.round()
}

// The reading of a voltage. Refused by 18.
pub fn reading_of(voltage: f64) -> Result<i32, Refusal>
    ensures answers { told result ≡ reading_of (thousandths voltage) }
    ensures nearest { Reads (thousandths voltage) (told result) }
{
    let whole = nearest(voltage * 1000.0);
    if whole.abs() < LIMIT {
        return Ok(saturating_f64_to_i32(whole));
    }
    Err(Refusal::ReadingOutOfRange)
}

// The reading of the branch at a place. Refused by 1, 2, 4 and 18.
pub fn reading(plan: &Plan, rows: &[Row<f64>], number: u32) -> Result<i32, Refusal>
    ensures { told result ≡ reading_at plan.now rows.now number }
{
    check_place(rows.len(), number)?;
    plan.at(number).ok_or(Refusal::PlaceEmpty)?;
    reading_of(rows[number as usize].voltage)
}
