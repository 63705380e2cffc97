// Slips, readings and traces, run at the edges of their rules. The expected numbers are worked out by hand.
#![tactic(auto)]

use sheet::{Kind, Placement, Plan, Row};
use sheet_tests::number_of;
use slips::{SlipRow, SlipWriter, write_slip};

#[cfg(test)]
mod tests;

// What an area holds before a slip is written.
pub const FILLED: u8 = 0xEE;

// A row with -1, +1 and +1 at places 0, 1 and 2.
pub fn three_entries() -> [i8; 32] {
    let mut entries = [0; 32];
    entries[0] = -1;
    entries[1] = 1;
    entries[2] = 1;
    entries
}

// Whether a part of an area is that byte throughout. Figures of steps are compared by their bits instead.
pub fn all_are(part: &[u8], byte: u8) -> bool {
    part.iter().all(|b| *b == byte)
}

// Numbers rows from 0 on.
pub fn number_rows(rows: &mut [SlipRow]) {
    for (number, row) in (0..u32::MAX).zip(rows.iter_mut()) {
        row.number = number;
    }
}

// Writes a whole slip: the bytes used, or none.
pub fn written(area: &mut [u8], tree: u32, rows: &[SlipRow]) -> Option<usize> {
    write_slip(area, tree, rows).ok()
}

// Opens a slip, gives it one row and lets it end unsealed: the row's answer.
pub fn row_alone(area: &mut [u8], tree: u32, number: u32, entries: &[i8]) -> u32 {
    let mut writer = SlipWriter::open(area, tree);
    number_of(writer.row(number, entries))
}

// Opens a slip, gives it two rows and seals it: whether the second row's answer and the bytes used are those.
pub fn two_rows(
    area: &mut [u8],
    numbers: [u32; 2],
    entries: &[i8],
    answer: u32,
    used: usize,
) -> bool {
    let first = three_entries();
    let mut writer = SlipWriter::open(area, 5);
    let _ = writer.row(numbers[0], &first);
    let second = number_of(writer.row(numbers[1], entries));
    match writer.seal() {
        Ok(bytes) => second == answer && bytes == used,
        Err(_) => false,
    }
}

// Opens a slip and seals it at once: the bytes used, or none.
pub fn tree_alone(area: &mut [u8], tree: u32) -> Option<usize> {
    SlipWriter::open(area, tree).seal().ok()
}

// A sheet with a resistor at place 3, whose voltage is that.
pub fn sheet_with(rows: &mut [Row<f64>], voltage: f64) -> Plan {
    let mut plan = Plan::empty();
    let placement = Placement {
        number: 3,
        kind: Kind::Resistor.into(),
        tail: 1,
        head: 0,
        value: 2.0,
        start: 0.0,
    };
    let _ = plan.place::<f64>(rows, placement);
    if let Some(row) = rows.get_mut(3) {
        row.voltage = voltage;
    }
    plan
}
