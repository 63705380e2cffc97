// What is solved. Its methods are in lib.rt: what they promise is stated over it.
ghost use Rattle.std.specs.Prelude.{◌≤◌, length};

// A system of so many unknowns, at most 15, and the lent places where it stands, at least 304.
#[derive(Drop)]
pub(crate) struct System<'a, N> {
    pub(crate) work: &'a mut [N],
    pub(crate) unknowns: u32,
    ghost few: { unknowns ≤ 15 },
    ghost room: { 304 ≤ length work.now },
}
