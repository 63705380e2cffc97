// Reading a stream line by line.
const LINE_END: u8 = b'\n';

// What is left to be read of a stream, and how many lines are read, which a difference is told with.
#[derive(Drop)]
pub(crate) struct Stream<'a> {
    rest: &'a [u8],
    lines: usize,
}

impl<'a> Stream<'a> {
    pub(crate) fn new(text: &'a [u8]) -> Stream<'a> {
        Stream {
            rest: text,
            lines: 0,
        }
    }

    // How many bytes are left.
    pub(crate) fn left(&self) -> usize {
        self.rest.len()
    }

    // How many lines are read.
    pub(crate) fn lines(&self) -> usize {
        self.lines
    }

    // Whether these bytes come next.
    pub(crate) fn is_at(&self, bytes: &[u8]) -> bool {
        self.rest.starts_with(bytes)
    }

    // The next line without its end; none where no line ends any more.
    pub(crate) fn line(&mut self) -> Option<&'a [u8]> {
        let length = self.rest.iter().position(|b| *b == LINE_END)?;
        self.block(length)
    }

    // So many bytes, before the end of a line.
    pub(crate) fn block(&mut self, length: usize) -> Option<&'a [u8]> {
        let (block, rest) = self.rest.split_at_checked(length)?;
        self.rest = rest.strip_prefix(&[LINE_END])?;
        let ends = block.iter().filter(|b| **b == LINE_END).count();
        self.lines = self.lines.saturating_add(ends).saturating_add(1);
        Some(block)
    }
}
