// The ends of a branch. No value of the type has a node above 15, or the same node for tail and head.
ghost use Rattle.std.specs.Prelude.{◌≡◌, ◌<◌, ◌≢◌};

#[derive(Clone, Copy)]
pub struct Ends {
    // Current flows from the tail to the head; the voltage is the tail's potential less the head's.
    pub tail: u8,
    pub head: u8,
    ghost tail_within: { tail < 16 },
    ghost head_within: { head < 16 },
    ghost apart: { (tail ≢ head) },
}
