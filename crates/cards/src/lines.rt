// The lines of a text. A line ends at byte 10 or with the text.
ghost use Rattle.std.specs.Prelude.{◌≡◌};
ghost use Rattle.std.specs.Iterator.{item_count};
ghost use Rattle.cards.specs.Lines.{lines_left, GivesLine};
ghost use Rattle.cards.specs.Parts.{parts};

use crate::reader::{Line, Reader};
use crate::scan::until;

const LINE_END: u8 = b'\n';

impl<'a> Reader<'a> {
    // Before the first line.
    pub(crate) fn new(input: &'a [u8]) -> Reader<'a>
        ensures left { lines_left result ≡ parts 10 input.now }
        ensures lines { result.lines ≡ 0 }
    {
        Reader {
            input,
            byte: 0,
            lines: 0,
        }
    }
}

// Line by line. After a byte 10 at the end of the text one empty line is left.
impl<'a> Iterator for Reader<'a> {
    type Item = Line<'a>;

    ghost next_gives = { GivesLine };

    ghost remaining = { item_count lines_left };

    fn next(&mut self) -> Option<Line<'a>> {
        let rest = self.input.get(self.byte..)?;
        let length = until(rest, LINE_END);
        self.byte += length + 1;
        self.lines += 1;
        Some(Line {
            text: &rest[..length],
            number: self.lines,
        })
    }
}
