// What is wrong with a text of cards, and where.
ghost use Rattle.std.specs.Prelude.{◌≡◌, Some};
ghost use Rattle.cards.specs.Reading.{fault_text, named};

use sheet::Refusal;
use std::error::Error;
use std::fmt;

// Who refuses: the card rules, or the sheet that the card is placed on.
#[derive(Clone, Copy, PartialEq, Eq, Debug)]
pub enum Layer {
    Cards,
    Sheet,
}

// The line and the byte in it are counted from 1; both are 0 where the row table is refused before any line.
#[derive(Clone, Copy, PartialEq, Eq, Debug)]
pub struct Fault {
    pub layer: Layer,
    pub refusal: Refusal,
    pub line: usize,
    pub byte: usize,
}

// `7 line 1 byte 1`: the number of the refusal, the line and the byte.
impl fmt::Display for Fault {
    ghost output = { λ f. Some (fault_text (named f)) };

    fn fmt<W: fmt::Write>(&self, f: &mut fmt::Formatter<W>) -> fmt::Result {
        write!(f, "{} line {} byte {}", self.refusal, self.line, self.byte)
    }
}

impl Error for Fault {}

// A fault within one line.
#[derive(Clone, Copy)]
pub(crate) struct Wrong {
    pub(crate) refusal: Refusal,
    pub(crate) byte: usize,
}

impl Wrong {
    // The same, within that line.
    pub(crate) fn at(self, line: usize) -> Fault
        ensures { result ≡ record { layer = Layer.Cards; refusal = self.refusal; line = line; byte = self.byte } }
    {
        Fault {
            layer: Layer::Cards,
            refusal: self.refusal,
            line,
            byte: self.byte,
        }
    }
}
