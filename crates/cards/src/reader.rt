// How far a text is read.
ghost use Rattle.std.specs.Prelude.{◌+◌, ◌≤◌, length};

// A line with its number, counted from 1.
#[derive(Clone, Copy)]
pub(crate) struct Line<'a> {
    pub(crate) text: &'a [u8],
    pub(crate) number: usize,
}

// How far a text is read: at which byte the next line begins, past the end once the last line is read, and how many
// lines are read. Tried: the library's `split`; no invariant can be stated over an iterator that holds a closure.
#[derive(Drop)]
pub(crate) struct Reader<'a> {
    pub(crate) input: &'a [u8],
    pub(crate) byte: usize,
    pub(crate) lines: usize,
    ghost within: { byte ≤ length input.now + 1 },
    ghost counted: { lines ≤ byte },
}
