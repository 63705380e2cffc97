// The smallest calls on a sheet that are refused. Each sheet is a blank one.
use crate::answer::show_answer;
use sheet::{Kind, Placement, Plan, Refusal, fresh_rows};

// A resistor of 2 ohms at place 0, from node 1 to node 0, which a blank sheet takes.
fn resistor() -> Placement<f64> {
    Placement {
        number: 0,
        kind: Kind::Resistor.into(),
        tail: 1,
        head: 0,
        value: 2.0,
        start: 0.0,
    }
}

fn blanking_without_rows() -> Result<(), Refusal> {
    Plan::empty().blank::<f64>(&mut [])
}

fn lift_of_place_32() -> Result<(), Refusal> {
    Plan::empty().lift::<f64>(&mut fresh_rows(), 32)
}

fn second_branch_at_one_place() -> Result<(), Refusal> {
    let (mut plan, mut rows) = (Plan::empty(), fresh_rows());
    plan.place(&mut rows, resistor())?;
    plan.place(&mut rows, resistor())
}

fn lift_of_an_empty_place() -> Result<(), Refusal> {
    Plan::empty().lift::<f64>(&mut fresh_rows(), 0)
}

fn branch_of_kind_6() -> Result<(), Refusal> {
    let branch = Placement {
        kind: 6,
        ..resistor()
    };
    Plan::empty().place(&mut fresh_rows(), branch)
}

fn resistor_with_a_start() -> Result<(), Refusal> {
    let branch = Placement {
        start: 1.0,
        ..resistor()
    };
    Plan::empty().place(&mut fresh_rows(), branch)
}

fn new_value_for_a_resistor() -> Result<(), Refusal> {
    let (mut plan, mut rows) = (Plan::empty(), fresh_rows());
    plan.place(&mut rows, resistor())?;
    plan.set(&mut rows, 0, 3.0)
}

pub(crate) fn show_sheet_calls(rt: &HostRuntime) -> anyhow::Result<()> {
    show_answer(rt, "01 blanking without rows", blanking_without_rows())?;
    show_answer(rt, "02 lift of place 32", lift_of_place_32())?;
    show_answer(
        rt,
        "03 second branch at one place",
        second_branch_at_one_place(),
    )?;
    show_answer(rt, "04 lift of an empty place", lift_of_an_empty_place())?;
    show_answer(rt, "05 branch of kind 6", branch_of_kind_6())?;
    show_answer(rt, "09 resistor with a start", resistor_with_a_start())?;
    show_answer(
        rt,
        "10 new value for a resistor",
        new_value_for_a_resistor(),
    )
}
