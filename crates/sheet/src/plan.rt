// A plan: the branches of a sheet, by place. The places are a fixed array, since no call on a sheet asks for memory.
use crate::branch::Branch;

#[derive(Clone, Copy)]
pub struct Plan {
    pub(crate) places: [Option<Branch>; 32],
}
