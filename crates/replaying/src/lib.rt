// Replays a stream of card files and stories with the engine's own calls, and compares each answer with the expected one
// that the stream holds. reference/README.md has the format of a stream, and how the one of the gate is made.
#![tactic(auto)]

mod answers;
mod call;
mod digits;
mod figure;
mod files;
mod parts;
mod progress;
mod sheets;
mod stop;
mod story;
mod stream;
mod words;

pub use parts::replay;
pub use progress::Report;
