// Steps a card file in binary64 and prints every bit of what it comes to.
//
//     steps N < FILE
//
// takes N steps of length 1 and prints the current and the voltage of each branch by their bits, or what stands in the way.
#![tactic(auto)]

use arithmetic::Arithmetic;
use cards::read_cards;
use sheet::{Plan, Refusal, Row, fresh_rows};
use std::env;
use std::io::Read;
use std::num::f64_to_bits_with_nan;
use stepping::step;

// The longest card file that is read. This program stands on no key and on no other program: `show` reads and steps a card
// file in as many lines, which a library for both would not make plainer. Plan and rows are handed on as the calls take them.
const LONGEST: u64 = 4096;

fn take_steps(plan: &Plan, rows: &mut [Row<f64>], steps: u32) -> Result<(), Refusal> {
    let mut work = [<f64 as Arithmetic>::zero(); 304];
    for _ in 0..steps {
        step::<f64>(plan, rows, <f64 as Arithmetic>::one(), &mut work)?;
    }
    Ok(())
}

// `row 2 4000000000000000 4000000000000000` for each branch. No NaN is ever in a row.
fn show_rows(rt: &HostRuntime, plan: &Plan, rows: &[Row<f64>]) -> anyhow::Result<()> {
    for k in 0..32 {
        if let Some(look) = plan.look::<f64>(rows, k) {
            let current = f64_to_bits_with_nan(look.current);
            let voltage = f64_to_bits_with_nan(look.voltage);
            println!(rt; "row {k} {current:016x} {voltage:016x}")?;
        }
    }
    Ok(())
}

fn show_steps(rt: &HostRuntime, cards: &[u8], steps: u32) -> anyhow::Result<()> {
    let (mut plan, mut rows) = (Plan::empty(), fresh_rows::<f64>());
    if let Err(fault) = read_cards(cards, &mut plan, &mut rows) {
        println!(rt; "refused {fault}")?;
        return Ok(());
    }
    match take_steps(&plan, &mut rows, steps) {
        Ok(()) => show_rows(rt, &plan, &rows),
        Err(refusal) => {
            println!(rt; "refused {refusal}")?;
            Ok(())
        }
    }
}

// The number after the program's name.
fn read_count(rt: &HostRuntime) -> anyhow::Result<Option<u32>> {
    let mut words = env::args(rt)?;
    let _ = words.next();
    Ok(words.next().and_then(|word| word.as_str().parse().ok()))
}

fn run(rt: &HostRuntime) -> anyhow::Result<()> {
    let mut cards = Vec::new(rt.alloc());
    let _ = rt.stdin().take(LONGEST).read_to_end(&mut cards)?;
    match read_count(rt)? {
        Some(steps) => show_steps(rt, cards.as_slice(), steps),
        None => {
            println!(rt; "usage: steps N < FILE")?;
            Ok(())
        }
    }
}

fn main(rt: HostRuntime) -> anyhow::Result<()> {
    run(&rt)
}
