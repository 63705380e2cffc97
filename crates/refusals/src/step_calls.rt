// The smallest steps that are refused.
use crate::answer::show_answer;
use sheet::{Kind, Placement, Plan, Refusal, fresh_rows};
use stepping::step;

fn step_without_a_work_area() -> Result<(), Refusal> {
    step(&Plan::empty(), &mut fresh_rows(), 1.0, &mut [])
}

fn step_of_length_zero() -> Result<(), Refusal> {
    step(&Plan::empty(), &mut fresh_rows(), 0.0, &mut [0.0; 304])
}

// A coil of 10^200 henries that carries 10^200 amperes at the start. Alone it would have -10^400 volts.
fn coil() -> Placement<f64> {
    Placement {
        number: 0,
        kind: Kind::Inductor.into(),
        tail: 1,
        head: 0,
        value: 1e200,
        start: 1e200,
    }
}

fn voltage_beyond_all_numbers() -> Result<(), Refusal> {
    let (mut plan, mut rows) = (Plan::empty(), fresh_rows());
    plan.place(&mut rows, coil())?;
    step(&plan, &mut rows, 1.0, &mut [0.0; 304])
}

pub(crate) fn show_step_calls(rt: &HostRuntime) -> anyhow::Result<()> {
    show_answer(
        rt,
        "01 step without a work area",
        step_without_a_work_area(),
    )?;
    show_answer(rt, "11 step of length zero", step_of_length_zero())?;
    show_answer(
        rt,
        "15 voltage beyond all numbers",
        voltage_beyond_all_numbers(),
    )
}
