// Steps of a sheet, one after another: the readings of all branches after each, and the trace of one of them. Plan and rows
// stay two parameters, as in every call that they are handed on to.
use crate::asked::Asked;
use arithmetic::Arithmetic;
use figures::{Trace, reading_of};
use networks::is_placed;
use sheet::{Plan, Refusal, Row};
use stepping::step;

// The numbers of the placed branches, as the head of the columns.
fn show_head(rt: &HostRuntime, plan: &Plan) -> anyhow::Result<()> {
    print!(rt; "step")?;
    for k in 0..32 {
        if is_placed(plan, k) {
            print!(rt; " mv{k}")?;
        }
    }
    println!(rt; "")?;
    Ok(())
}

// A voltage in thousandths, or the refusal of its reading.
fn show_thousandths(rt: &HostRuntime, voltage: f64) -> anyhow::Result<()> {
    match reading_of(voltage) {
        Ok(thousandths) => print!(rt; " {thousandths}")?,
        Err(refusal) => print!(rt; " refused-{refusal}")?,
    }
    Ok(())
}

fn show_reading(rt: &HostRuntime, plan: &Plan, rows: &[Row<f64>], k: u32) -> anyhow::Result<()> {
    match plan.look::<f64>(rows, k) {
        Some(look) => show_thousandths(rt, look.voltage),
        None => Ok(()),
    }
}

fn show_readings(rt: &HostRuntime, plan: &Plan, rows: &[Row<f64>], at: u32) -> anyhow::Result<()> {
    print!(rt; "{at}")?;
    for k in 0..32 {
        show_reading(rt, plan, rows, k)?;
    }
    println!(rt; "")?;
    Ok(())
}

fn take(plan: &Plan, rows: &[Row<f64>], branch: u32, trace: &mut Trace) -> Result<(), Refusal> {
    match plan.look::<f64>(rows, branch) {
        Some(look) => trace.take(look.voltage),
        None => Err(Refusal::PlaceEmpty),
    }
}

// Least, greatest and last voltage in thousandths, and how many were taken.
fn show_trace(rt: &HostRuntime, branch: u32, trace: Trace) -> anyhow::Result<()> {
    print!(rt; "trace {branch}")?;
    show_thousandths(rt, trace.least())?;
    show_thousandths(rt, trace.greatest())?;
    show_thousandths(rt, trace.last())?;
    println!(rt; " {}", trace.count())?;
    Ok(())
}

fn take_step(plan: &Plan, rows: &mut [Row<f64>], h: f64) -> Result<(), Refusal> {
    let mut work = [<f64 as Arithmetic>::zero(); 304];
    step::<f64>(plan, rows, h, &mut work)
}

pub(crate) fn show_run(
    rt: &HostRuntime,
    plan: &Plan,
    rows: &mut [Row<f64>],
    asked: Asked,
) -> anyhow::Result<()> {
    let top = <f64 as Arithmetic>::whole(asked.top as u64);
    let bottom = <f64 as Arithmetic>::whole(asked.bottom as u64);
    let h = top.quotient(bottom);
    let mut trace = Trace::fresh();
    show_head(rt, plan)?;
    show_readings(rt, plan, rows, 0)?;
    for k in 0..asked.steps {
        if let Err(refusal) = take_step(plan, rows, h) {
            println!(rt; "refused {refusal}")?;
            return Ok(());
        }
        let _ = take(plan, rows, asked.branch, &mut trace);
        show_readings(rt, plan, rows, k + 1)?;
    }
    show_trace(rt, asked.branch, trace)
}
