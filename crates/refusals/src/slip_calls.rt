// The smallest slips that are refused: each has a tree without branches.
use crate::answer::show_answer;
use sheet::Refusal;
use slips::{SlipRow, write_slip};

fn slip_with_a_row_32() -> Result<usize, Refusal> {
    let row = SlipRow {
        number: 32,
        entries: [0; 32],
    };
    write_slip(&mut [0; 280], 0, &[row])
}

fn slip_in_no_bytes() -> Result<usize, Refusal> {
    write_slip(&mut [], 0, &[])
}

pub(crate) fn show_slip_calls(rt: &HostRuntime) -> anyhow::Result<()> {
    show_answer(rt, "16 slip with a row 32", slip_with_a_row_32())?;
    show_answer(rt, "17 slip in no bytes", slip_in_no_bytes())
}
