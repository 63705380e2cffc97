// The smallest readings and traces that are refused.
use crate::answer::show_answer;
use figures::{Trace, reading_of};
use sheet::Refusal;

fn reading_of_a_million_volts() -> Result<i32, Refusal> {
    reading_of(1000000.0)
}

fn trace_of_an_infinite_voltage() -> Result<(), Refusal> {
    Trace::fresh().take(f64::INFINITY)
}

// The last of them is one too many.
fn trace_of_1000001_voltages() -> Result<(), Refusal> {
    let mut trace = Trace::fresh();
    for _ in 0..1_000_001 {
        trace.take(0.0)?;
    }
    Ok(())
}

pub(crate) fn show_figure_calls(rt: &HostRuntime) -> anyhow::Result<()> {
    show_answer(
        rt,
        "18 reading of a million volts",
        reading_of_a_million_volts(),
    )?;
    show_answer(
        rt,
        "19 trace of an infinite voltage",
        trace_of_an_infinite_voltage(),
    )?;
    show_answer(
        rt,
        "20 trace of 1000001 voltages",
        trace_of_1000001_voltages(),
    )
}
