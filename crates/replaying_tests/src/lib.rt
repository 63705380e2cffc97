// Streams with a wrong answer or a line that is none, and what their replay tells. The stream of the gate has neither.
#![tactic(auto)]

#[cfg(test)]
mod tests;
