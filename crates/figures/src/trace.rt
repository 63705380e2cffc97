// What a trace keeps of the voltages of one branch. With a count of 0 the rest is 0, and the getters promise that: an
// Option here would have each of them put the zero back.
#[derive(Clone, Copy)]
pub struct Trace {
    pub(crate) least: f64,
    pub(crate) greatest: f64,
    pub(crate) last: f64,
    pub(crate) count: u32,
}
