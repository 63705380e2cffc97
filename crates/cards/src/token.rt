// The fields of a card, by what they are for: what the text of each may be, and what it comes to.
ghost use Rattle.std.specs.Prelude.{◌≡◌, true};
ghost use Rattle.cards.specs.Cards.{checked_by, wanted, byte_of, then, measured, counted};
ghost use Rattle.cards.specs.Fields.{seen};
ghost use Rattle.cards.specs.Numerals.{figured, word_of, is_whole};

use crate::digits::{ratio_of, signed_of, whole_of};
use crate::fault::Wrong;
use crate::field::Field;
use crate::numeral::Numeral;
use crate::values::quotient_of;
use arithmetic::Arithmetic;
use sheet::{Kind, Refusal};

#[derive(Clone, Copy)]
pub(crate) enum Token<'a> {
    Number(Field<'a>),
    Node(Field<'a>),
    Value(Field<'a>),
    Start(Field<'a>),
}

impl<'a> Token<'a> {
    // The field that it borrows from the line.
    fn field(self) -> Field<'a>
        ensures { seen result ≡ word_of self.entry }
    {
        match self {
            Token::Number(field) | Token::Node(field) | Token::Value(field) | Token::Start(field) =>
                field,
        }
    }

    // The numeral that the text is, if it is one: digits of numbers and nodes, digits over digits of values and starts. A
    // minus may stand before the value of a source and before a start.
    fn figure(self, kind: Kind) -> Option<Numeral>
        ensures { result ≡ figured kind self.entry }
    {
        match self {
            Token::Number(field) | Token::Node(field) => whole_of(field.text),
            Token::Value(field) if kind.is_source() => signed_of(field.text),
            Token::Value(field) => ratio_of(field.text),
            Token::Start(field) => signed_of(field.text),
        }
    }

    // The same. Refused by 22.
    fn numeral(self, kind: Kind) -> Result<Numeral, Wrong>
        ensures { checked_by (λ n. n) result ≡ wanted 22 (byte_of (word_of self.entry)) (figured kind self.entry) }
    {
        self.figure(kind)
            .ok_or(self.field().wrong(Refusal::BadNumberField))
    }

    // A branch or node number. Refused by 22.
    pub(crate) fn count(self, kind: Kind) -> Result<u32, Wrong>
        requires { is_whole self ≡ true }
        ensures { checked_by (λ n. n) result ≡ counted (word_of self.entry) }
    {
        let n = self.numeral(kind)?;
        Ok(n.top as u32)
    }

    // A value or a start. Refused by 22 and 23.
    pub(crate) fn measure<N: Arithmetic>(self, kind: Kind) -> Result<N, Wrong>
        ensures { checked_by N.mean result ≡ then (wanted 22 (byte_of (word_of self.entry)) (figured kind self.entry)) (measured N.ops (byte_of (word_of self.entry))) }
    {
        let n = self.numeral(kind)?;
        quotient_of(n, self.field())
    }
}
