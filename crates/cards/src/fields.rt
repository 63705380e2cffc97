// Lines cut into fields. Byte 32 alone parts fields.
ghost use Rattle.std.specs.Prelude.{◌≡◌, ◌<◌, ◌≤◌, length, drop, ◌≢◌, slice_index};
ghost use Rattle.cards.specs.Cards.{byte_of};
ghost use Rattle.cards.specs.Fields.{seen, seen_cut, cutting, First, word_end, words_from};

use crate::fault::Wrong;
use crate::field::{Cut, Field};
use crate::scan::until;
use sheet::Refusal;

const SPACE: u8 = b' ';

impl<'a> Field<'a> {
    // The place just past the field.
    fn end(self) -> usize
        ensures { result ≡ word_end (seen self.entry) }
    {
        self.place + self.text.len()
    }

    // That refusal at the field's first byte, counted from 1.
    pub(crate) fn wrong(self, refusal: Refusal) -> Wrong
        ensures refusal { result.refusal ≡ refusal }
        ensures byte { result.byte ≡ byte_of (seen self.entry) }
    {
        Wrong {
            refusal,
            byte: self.place + 1,
        }
    }
}

// The first place from there on that holds no space.
fn past_spaces(line: &[u8], from: usize) -> usize
    requires { from ≤ length line.now }
    ensures same { words_from result (drop result line.now) ≡ words_from from (drop from line.now) }
    ensures within { result ≤ length line.now }
    ensures stops { result < length line.now → slice_index line.now result ≢ 32 }
{
    let rest = &line[from..];
    from + rest.iter().position(|b| *b != SPACE).unwrap_or(rest.len())
}

// The first field from that place on.
fn field_from<'a>(line: &'a [u8], from: usize) -> Field<'a>
    requires { from ≤ length line.now }
    ensures { First line.now from (seen result) }
{
    let place = past_spaces(line, from);
    let rest = &line[place..];
    Field {
        text: &rest[..until(rest, SPACE)],
        place,
    }
}

// The first field of a line. It is enough to tell a line that is skipped.
pub(crate) fn first_field<'a>(line: &'a [u8]) -> Field<'a>
    ensures { First line.now 0 (seen result) }
{
    field_from(line, 0)
}

// The first six fields of a line, whose first is at hand.
pub(crate) fn cut_after<'a>(line: &'a [u8], first: Field<'a>) -> Cut<'a>
    requires { First line.now 0 (seen first) }
    ensures { seen_cut result ≡ cutting line.now }
{
    let tail = field_from(line, first.end());
    let head = field_from(line, tail.end());
    let value = field_from(line, head.end());
    let fifth = field_from(line, value.end());
    let sixth = field_from(line, fifth.end());
    Cut {
        first,
        tail,
        head,
        value,
        fifth,
        sixth,
    }
}
