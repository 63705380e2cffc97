// Steps a card file and shows every part of the engine at work.
//
//     show STEPS TOP BOTTOM BRANCH < FILE
//
// prints the matrices of the circuit, its slip, a column of readings for each branch after each step of length
// TOP / BOTTOM, and the trace of one branch.
#![tactic(auto)]

mod asked;
mod matrices;
mod slip;
mod stepping_run;

use crate::asked::{Asked, read_words};
use crate::matrices::show_matrices;
use crate::slip::show_slip;
use crate::stepping_run::show_run;
use cards::read_cards;
use sheet::{Plan, fresh_rows};
use std::io::Read;

// The longest card file that is read. This program stands on no key, where there is such a limit too, and on no other program:
// `steps` reads and steps a card file in as many lines, which a library for both would not make plainer.
const LONGEST: u64 = 4096;

fn show(rt: &HostRuntime, asked: Asked, cards: &[u8]) -> anyhow::Result<()> {
    let (mut plan, mut rows) = (Plan::empty(), fresh_rows::<f64>());
    if let Err(fault) = read_cards(cards, &mut plan, &mut rows) {
        println!(rt; "refused {fault}")?;
        return Ok(());
    }
    show_matrices(rt, &plan)?;
    show_slip(rt, &plan)?;
    show_run(rt, &plan, &mut rows, asked)
}

fn run(rt: &HostRuntime) -> anyhow::Result<()> {
    let mut cards = Vec::new(rt.alloc());
    let _ = rt.stdin().take(LONGEST).read_to_end(&mut cards)?;
    match read_words(rt)? {
        Some(asked) => show(rt, asked, cards.as_slice()),
        None => {
            println!(rt; "usage: show STEPS TOP BOTTOM BRANCH < FILE")?;
            Ok(())
        }
    }
}

fn main(rt: HostRuntime) -> anyhow::Result<()> {
    run(&rt)
}
