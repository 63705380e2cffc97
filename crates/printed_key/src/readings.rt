// The block of readings: voltages in whole thousandths after one step in binary64.
ghost use Rattle.std.specs.Prelude.{◌≡◌, string_bytes};
ghost use Rattle.printed_key.specs.Blocks.{reading_here, readings_below, readings_after, reading_lines, step_lines};
ghost use Rattle.printed_key.specs.Text.{Adds, text_of};
ghost use Rattle.sheet.specs.Refusals.{told};

use crate::stop::Stop;
use crate::words::place;
use arithmetic::Arithmetic;
use figures::reading;
use networks::is_placed;
use sheet::{Plan, Refusal, Row};
use std::alloc::AllocError;
use stepping::Framed;

// The reading of the branch k; none at an empty place.
fn reading_at(plan: &Plan, rows: &[Row<f64>; 32], k: u32) -> Result<Option<i32>, Refusal>
    ensures { told result ≡ reading_here plan.now rows.now k }
{
    if !is_placed(plan, k) {
        return Ok(None);
    }
    reading(plan, rows, k).map(Some)
}

// The readings of all branches, or the first that is refused.
fn readings(plan: &Plan, rows: &[Row<f64>; 32]) -> Result<[Option<i32>; 32], Refusal>
    ensures { told result ≡ readings_below plan.now rows.now 32 }
{
    // Tried: the library's `try_from_fn`; its clause does not tie what a call saw to what the closure holds.
    let mut readings = [None; 32];
    for (k, reading) in readings.iter_mut().enumerate() {
        *reading = reading_at(plan, rows, k as u32)?;
    }
    Ok(readings)
}

// The readings of all branches after one step of length 1.
fn stepped_readings(
    framed: &Framed,
    rows: &mut [Row<f64>; 32],
) -> Result<[Option<i32>; 32], Refusal>
    ensures { told result ≡ readings_after (record { plan = framed.now.plan.now; rows = rows.old }) }
{
    let mut area = [<f64 as Arithmetic>::zero(); 304];
    framed.step(rows, <f64 as Arithmetic>::one(), &mut area)?;
    readings(framed.plan, rows)
}

// `mv 1 4000` for each branch.
fn push_voltages(text: &mut String, readings: &[Option<i32>; 32]) -> Result<(), AllocError>
    ensures { Adds result (string_bytes text.old) (string_bytes text.new) (text_of (reading_lines readings.now)) }
{
    for (k, reading) in readings.iter().enumerate() {
        if let Some(reading) = *reading {
            writeln!(text, "mv{} {reading}", place(k as u32))?;
        }
    }
    Ok(())
}

// A line for each branch, or one refusal in place of them all.
pub(crate) fn push_readings(
    text: &mut String,
    framed: &Framed,
    rows: &mut [Row<f64>; 32],
) -> Result<(), AllocError>
    ensures { Adds result (string_bytes text.old) (string_bytes text.new) (text_of (step_lines (record { plan = framed.now.plan.now; rows = rows.old }))) }
{
    match stepped_readings(framed, rows) {
        Ok(readings) => push_voltages(text, &readings),
        Err(refusal) => writeln!(text, "{}", Stop::Refused(refusal)),
    }
}
