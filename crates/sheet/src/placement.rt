// What a branch is placed with. The numbers are whatever the caller hands over: the kind too, which a call refuses by 5.
#[derive(Clone, Copy)]
pub struct Placement<N> {
    pub number: u32,
    pub kind: u32,
    pub tail: u32,
    pub head: u32,
    pub value: N,
    pub start: N,
}
