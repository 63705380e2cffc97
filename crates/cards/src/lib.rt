// The card reader: a text of cards is placed on a blank sheet, or the first fault is named.
#![tactic(auto)]

mod calls;
mod card;
mod digits;
mod fault;
mod field;
mod fields;
mod lines;
mod numeral;
mod reader;
mod scan;
mod token;
mod values;

pub use calls::read_cards;
pub use fault::{Fault, Layer};
