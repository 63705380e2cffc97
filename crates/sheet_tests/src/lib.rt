// The calls on a sheet, run at the edges of their rules. The expected numbers are worked out by hand.
#![tactic(auto)]

use arithmetic::Arithmetic;
use sheet::{Placement, Plan, Refusal, Row};

#[cfg(test)]
mod tests;

// A row whose four values are v.
pub fn row_of<N: Copy>(v: N) -> Row<N> {
    Row {
        value: v,
        start: v,
        current: v,
        voltage: v,
    }
}

// 0 for a granted call, else the refusal's number: tests name a refusal as users know it.
pub fn number_of<T: Drop>(answer: Result<T, Refusal>) -> u32 {
    match answer {
        Ok(_) => 0,
        Err(refusal) => refusal.number(),
    }
}

// What placing answers on a blank sheet with that row table.
pub fn placed_on<N: Arithmetic>(rows: &mut [Row<N>], placement: Placement<N>) -> u32 {
    let mut plan = Plan::empty();
    number_of(plan.place(rows, placement))
}

// The same, by the placement's fields.
pub fn placed<N: Arithmetic>(
    rows: &mut [Row<N>],
    number: u32,
    kind: u32,
    tail: u32,
    head: u32,
    value: N,
    start: N,
) -> u32 {
    placed_on(
        rows,
        Placement {
            number,
            kind,
            tail,
            head,
            value,
            start,
        },
    )
}
