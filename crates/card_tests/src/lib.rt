// Tests of the card reader.
#![tactic(auto)]

mod answer;
#[cfg(test)]
mod faults;
#[cfg(test)]
mod sheets;

pub use answer::{Answer, answer_of, in_numbers};
