// The sheet of a story, and the engine's calls on it.
use crate::call::{Call, Deed, MOST_PLACES, MOST_ROWS};
use arithmetic::Arithmetic;
use sheet::{Plan, Refusal, Row};
use stepping::step;

// A plan with its rows and the work area of its steps. One row more than a plan has is there to be lent. They are arrays, since
// each call is lent as much of them as it says, and the replay asks for no memory.
#[derive(Drop)]
pub(crate) struct Sheet<N> {
    pub(crate) plan: Plan,
    rows: [Row<N>; MOST_ROWS],
    area: [N; MOST_PLACES],
}

impl<N: Arithmetic> Sheet<N> {
    // An empty plan with rows of zeros.
    pub(crate) fn blank() -> Sheet<N> {
        Sheet {
            plan: Plan::empty(),
            rows: [Row::zero(); MOST_ROWS],
            area: [N::zero(); MOST_PLACES],
        }
    }

    // The rows of the plan.
    pub(crate) fn rows(&self) -> &[Row<N>] {
        &self.rows[..32]
    }

    // Makes a call.
    pub(crate) fn answer(&mut self, call: Call<N>) -> Result<(), Refusal> {
        make(&mut self.plan, &mut self.rows, &mut self.area, call)
    }
}

// Lends as many rows and places to a call as it says. What it finds in the places is no matter: they hold ones.
fn make<N: Arithmetic>(
    plan: &mut Plan,
    rows: &mut [Row<N>],
    area: &mut [N],
    call: Call<N>,
) -> Result<(), Refusal> {
    let lent = call.rows.min(rows.len());
    let rows = &mut rows[0..lent];
    match call.deed {
        Deed::Blank => plan.blank(rows),
        Deed::Place(placement) => plan.place(rows, placement),
        Deed::Lift(number) => plan.lift(rows, number),
        Deed::Set(number, value) => plan.set(rows, number, value),
        Deed::Step(places, h) => {
            area.fill_with(|| N::one());
            let lent = places.min(area.len());
            step(plan, rows, h, &mut area[0..lent])
        }
    }
}
