// Meets every refusal of the engine: by the card files of its folder, and by calls.
#![tactic(auto)]

mod answer;
mod card_files;
mod figure_calls;
mod sheet_calls;
mod slip_calls;
mod step_calls;

use crate::card_files::show_card_files;
use crate::figure_calls::show_figure_calls;
use crate::sheet_calls::show_sheet_calls;
use crate::slip_calls::show_slip_calls;
use crate::step_calls::show_step_calls;

fn run(rt: &HostRuntime) -> anyhow::Result<()> {
    show_card_files(rt)?;
    show_sheet_calls(rt)?;
    show_step_calls(rt)?;
    show_slip_calls(rt)?;
    show_figure_calls(rt)
}

fn main(rt: HostRuntime) -> anyhow::Result<()> {
    run(&rt)
}
