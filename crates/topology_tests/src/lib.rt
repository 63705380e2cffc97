// Trees, loops, cuts and incidence of small plans. The expected words are worked out by hand.
#![tactic(auto)]

use sheet::{Kind, Placement, Plan, Refusal, Row, fresh_rows};

#[cfg(test)]
mod tests;

// The branches of a list at the places 0, 1 and so on, each with the value 1: a list of other tuples than that of the tests
// of steps.
pub fn drawn(branches: &[(Kind, u32, u32)]) -> Result<Plan, Refusal> {
    let mut rows = fresh_rows();
    let mut plan = Plan::empty();
    draw(&mut plan, &mut rows, branches)?;
    Ok(plan)
}

fn draw(
    plan: &mut Plan,
    rows: &mut [Row<f64>],
    branches: &[(Kind, u32, u32)],
) -> Result<(), Refusal> {
    for (number, (kind, tail, head)) in (0..).zip(branches) {
        plan.place(
            rows,
            Placement {
                number,
                kind: u32::from(*kind),
                tail: *tail,
                head: *head,
                value: 1.0,
                start: 0.0,
            },
        )?;
    }
    Ok(())
}
