// Every refusal of the engine, with its number and what it shows.
ghost use Rattle.std.specs.Prelude.{◌≡◌, decimal, Some};
ghost use Rattle.sheet.specs.Refusals.{means, shown_of};

use std::error::Error;
use std::fmt;

// A shown loop, cut or row: the members, and those of them that point against the run or into the set. Bit k is place k.
#[derive(Clone, Copy, PartialEq, Eq, Default, Debug)]
pub struct Shown {
    pub members: u32,
    pub against: u32,
}

#[derive(Clone, Copy, PartialEq, Eq, Debug)]
pub enum Refusal {
    // The row table does not have 32 rows, or the work area has fewer than 304 values.
    WrongLength,
    // The branch number is above 31.
    NoSuchPlace,
    // The place holds a branch already.
    PlaceTaken,
    // The place holds no branch.
    PlaceEmpty,
    // The kind is not one of 1 to 5.
    NoSuchKind,
    // A node is above 15.
    NoSuchNode,
    // The tail is the head.
    EndsMeet,
    // The value is unsound, or zero on a resistor, an inductor or a capacitor.
    BadValue,
    // The start is unsound, or not zero on a resistor or a source.
    BadStart,
    // A new value was given to a resistor, an inductor or a capacitor.
    NotASource,
    // The step length is unsound or zero.
    BadStepLength,
    // Voltage sources close a loop: the loop.
    VoltageLoop(Shown),
    // Current sources make up a cut: the cut.
    CurrentCut(Shown),
    // The equations of the step have no pivot in some column.
    NoPivot,
    // A result of the step is unsound.
    UnsoundResult,
    // The slip row is not above the last or above 31, or is not 32 entries of -1, 0 and 1.
    BadSlipRow,
    // The slip area has fewer than 280 bytes.
    SlipAreaShort,
    // The reading is out of range.
    ReadingOutOfRange,
    // The voltage for the trace is not finite.
    TraceNotFinite,
    // The trace holds 1,000,000 voltages already.
    TraceFull,
    // The card letter is not R, L, C, V or I.
    NoSuchLetter,
    // A number field of the card is missing or malformed.
    BadNumberField,
    // The denominator is zero in this arithmetic.
    ZeroDenominator,
    // The card has a field left over.
    FieldLeftOver,
    // The input of the printed key has more than 4,096 bytes.
    InputTooLong,
}

impl Refusal {
    // The number that the refusal is known by. Not a `From`, since the number alone drops what is shown.
    pub fn number(self) -> u32
        ensures { result ≡ (means self).number }
    {
        match self {
            Refusal::WrongLength => 1,
            Refusal::NoSuchPlace => 2,
            Refusal::PlaceTaken => 3,
            Refusal::PlaceEmpty => 4,
            Refusal::NoSuchKind => 5,
            Refusal::NoSuchNode => 6,
            Refusal::EndsMeet => 7,
            Refusal::BadValue => 8,
            Refusal::BadStart => 9,
            Refusal::NotASource => 10,
            Refusal::BadStepLength => 11,
            Refusal::VoltageLoop(_) => 12,
            Refusal::CurrentCut(_) => 13,
            Refusal::NoPivot => 14,
            Refusal::UnsoundResult => 15,
            Refusal::BadSlipRow => 16,
            Refusal::SlipAreaShort => 17,
            Refusal::ReadingOutOfRange => 18,
            Refusal::TraceNotFinite => 19,
            Refusal::TraceFull => 20,
            Refusal::NoSuchLetter => 21,
            Refusal::BadNumberField => 22,
            Refusal::ZeroDenominator => 23,
            Refusal::FieldLeftOver => 24,
            Refusal::InputTooLong => 25,
        }
    }

    // The loop or cut that the refusal shows.
    pub fn shown(self) -> Option<Shown>
        ensures { shown_of result ≡ (means self).words }
    {
        match self {
            Refusal::VoltageLoop(shown) | Refusal::CurrentCut(shown) => Some(shown),
            _ => None,
        }
    }
}

// The number of the refusal, in decimal.
impl fmt::Display for Refusal {
    ghost output = { λ r. Some (decimal (means r).number) };

    fn fmt<W: fmt::Write>(&self, f: &mut fmt::Formatter<W>) -> fmt::Result {
        write!(f, "{}", self.number())
    }
}

impl Error for Refusal {}
