// What reading a text answers, by number.
use arithmetic::Arithmetic;
use cards::{Fault, Layer, read_cards};
use sheet::{Plan, Row};

// Who refuses, the number of the refusal, the line and the byte: tests name a refusal by number, as users know it.
pub type Answer = Result<(), (Layer, u32, usize, usize)>;

pub fn in_numbers(fault: Fault) -> (Layer, u32, usize, usize) {
    (fault.layer, fault.refusal.number(), fault.line, fault.byte)
}

// The answer in an arithmetic, on rows that may hold anything.
pub fn answer_of<N: Arithmetic>(text: &[u8], rows: &mut [Row<N>]) -> Answer {
    read_cards(text, &mut Plan::empty(), rows).map_err(in_numbers)
}
