// Fields of a line.
ghost use Rattle.std.specs.Prelude.{◌+◌, ◌^◌, ◌<◌, length};

// A field: a stretch of a line with its place, counted from 0. A missing field is empty, at the line's end.
#[derive(Clone, Copy)]
pub(crate) struct Field<'a> {
    pub(crate) text: &'a [u8],
    pub(crate) place: usize,
    ghost near: { place + length text.now < 2 ^ 63 },
}

// The first six fields of a line.
#[derive(Clone, Copy)]
pub(crate) struct Cut<'a> {
    pub(crate) first: Field<'a>,
    pub(crate) tail: Field<'a>,
    pub(crate) head: Field<'a>,
    pub(crate) value: Field<'a>,
    pub(crate) fifth: Field<'a>,
    pub(crate) sixth: Field<'a>,
}
