// The words of a line, parted by one space each.
use crate::digits::decimal;
use crate::figure::Figure;

const SPACE: u8 = b' ';

// What is left of a line; nothing once its last word is read. The library's `split` would be no plainer here: it holds a
// closure, whose type this struct would carry.
#[derive(Drop)]
pub(crate) struct Words<'a> {
    rest: Option<&'a [u8]>,
}

impl<'a> Words<'a> {
    pub(crate) fn new(line: &'a [u8]) -> Words<'a> {
        Words { rest: Some(line) }
    }

    // The next word, which may be empty.
    pub(crate) fn word(&mut self) -> Option<&'a [u8]> {
        let rest = self.rest?;
        let Some(length) = rest.iter().position(|b| *b == SPACE) else {
            self.rest = None;
            return Some(rest);
        };
        self.rest = Some(&rest[length + 1..]);
        Some(&rest[..length])
    }

    // The next word as a decimal number.
    pub(crate) fn number(&mut self) -> Option<u32> {
        decimal(self.word()?)
    }

    // The next word as a decimal number that may not be larger.
    pub(crate) fn length(&mut self, most: usize) -> Option<usize> {
        let length = self.number()? as usize;
        (length <= most).then_some(length)
    }

    // The next word as a figure.
    pub(crate) fn figure<N: Figure>(&mut self) -> Option<N> {
        N::read(self.word()?)
    }

    // Whether no word is left.
    pub(crate) fn end(&self) -> Option<()> {
        self.rest.is_none().then_some(())
    }
}
