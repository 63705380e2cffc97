// One time step, run on small circuits. The expected figures are worked out by another program, reference/engine.py,
// and are compared bit for bit in binary64 and by remainder modulo 8,191.
#![tactic(auto)]

use arithmetic::Arithmetic;
use sheet::{Kind, Placement, Plan, Refusal, Row};
pub use sheet_tests::{number_of, row_of};
use std::num::f64_to_bits_with_nan;
use stepping::step;

#[cfg(test)]
mod tests;

// A figure as the number that it is compared by: its bits, or its remainder, which is worked out here and not asked of the
// engine. The replay's figures are read and written, and compared as words.
pub trait Figure: Copy {
    fn code(self) -> u64;
}

impl Figure for f64 {
    fn code(self) -> u64 {
        f64_to_bits_with_nan(self)
    }
}

impl Figure for u16 {
    fn code(self) -> u64 {
        (self % 8191) as u64
    }
}

// The plan of a list of branches at the places 0, 1 and so on: kind, tail, head, value and start, which the tests of trees
// leave out. The rows are blanked first.
pub fn drawn<N: Arithmetic>(
    rows: &mut [Row<N>],
    branches: &[(Kind, u32, u32, N, N)],
) -> Result<Plan, Refusal> {
    let mut plan = Plan::empty();
    plan.blank(rows)?;
    for (number, (kind, tail, head, value, start)) in (0..u32::MAX).zip(branches) {
        plan.place(
            rows,
            Placement {
                number,
                kind: u32::from(*kind),
                tail: *tail,
                head: *head,
                value: *value,
                start: *start,
            },
        )?;
    }
    Ok(plan)
}

// Whether a look at a branch shows that current and that voltage.
pub fn shows<N: Arithmetic + Figure>(
    plan: &Plan,
    rows: &[Row<N>],
    number: u32,
    current: u64,
    voltage: u64,
) -> bool {
    plan.look(rows, number).is_some_and(|seen| seen.current.code() == current
        && seen.voltage.code() == voltage)
}

// Whether looks at the places 0, 1 and so on show these currents and voltages.
pub fn shows_all<N: Arithmetic + Figure>(
    plan: &Plan,
    rows: &[Row<N>],
    figures: &[(u64, u64)],
) -> bool {
    (0..u32::MAX).zip(figures).all(|(number, (current, voltage))| shows(
        plan, rows, number, *current, *voltage,
    ))
}

// Whether steps of that length are all granted, and the places 0, 1 and so on show these figures after each.
pub fn follows<N: Arithmetic + Figure>(
    plan: &Plan,
    rows: &mut [Row<N>],
    h: N,
    work: &mut [N],
    steps: &[&[(u64, u64)]],
) -> bool {
    steps.iter().all(|figures| {
        step(plan, rows, h, work).is_ok() && shows_all(plan, rows, figures)
    })
}

// Whether a step of each of these lengths is refused by that number.
pub fn are_refused<N: Arithmetic>(
    plan: &Plan,
    rows: &mut [Row<N>],
    lengths: &[N],
    work: &mut [N],
    number: u32,
) -> bool {
    lengths
        .iter()
        .all(|h| number_of(step(plan, rows, *h, work)) == number)
}

// Whether every place holds that figure.
pub fn all_are<N: Figure>(places: &[N], figure: N) -> bool {
    places.iter().all(|place| place.code() == figure.code())
}

// Whether two rows hold the same four figures, compared as figures are: a derived equality takes no NaN for itself.
fn is_same_row<N: Figure>(a: Row<N>, b: Row<N>) -> bool {
    a.value.code() == b.value.code()
        && a.start.code() == b.start.code()
        && a.current.code() == b.current.code()
        && a.voltage.code() == b.voltage.code()
}

// Whether two row tables hold the same figures.
pub fn are_same<N: Figure>(a: &[Row<N>], b: &[Row<N>]) -> bool {
    a.len() == b.len() && a.iter().zip(b).all(|(x, y)| is_same_row(*x, *y))
}
