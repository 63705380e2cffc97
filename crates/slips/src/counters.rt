// How far a slip has come: the bits written, and the least number that the next row may have. Rows rise up to 31, so
// every one finds room: 32 + 69 * 32 bits are 280 bytes.
ghost use Rattle.std.specs.Prelude.{◌+◌, ◌*◌, ◌≤◌};

#[derive(Clone, Copy)]
pub(crate) struct Counters {
    pub(crate) at: usize,
    pub(crate) next: u32,
    ghost room: { at ≤ 32 + 69 * next },
    ghost below: { next ≤ 32 },
}
