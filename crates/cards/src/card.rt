// One line: skipped, a card, or wrong.
ghost use Rattle.std.specs.Prelude.{◌≡◌, not};
ghost use Rattle.cards.specs.Cards.{checked_by, start_of, over_of, card_of, line_of, barred, byte_of, is_empty, right, meant_card};
ghost use Rattle.cards.specs.Fields.{seen, seen_cut};
ghost use Rattle.sheet.specs.Meanings.{meant_placement};

use crate::fault::Wrong;
use crate::field::{Cut, Field};
use crate::fields::{cut_after, first_field};
use crate::token::Token;
use arithmetic::Arithmetic;
use sheet::{Kind, Placement, Refusal};

const STAR: u8 = b'*';

// The start that the field after the value gives; zero where the kind has none or none is written.
fn start<N: Arithmetic>(kind: Kind, field: Field) -> Result<N, Wrong>
    ensures { checked_by N.mean result ≡ start_of N.ops kind (seen field.entry) }
{
    if !kind.has_start() || field.text.is_empty() {
        return Ok(N::zero());
    }
    Token::Start(field).measure(kind)
}

// Nothing may follow the last field that the kind takes. Refused by 24.
fn none_over(kind: Kind, fields: Cut) -> Result<(), Wrong>
    ensures { checked_by (λ u. u) result ≡ barred 24 (byte_of (over_of kind (seen_cut fields.entry))) (not (is_empty (over_of kind (seen_cut fields.entry)).text)) (right tt) }
{
    let over = if kind.has_start() {
        fields.sixth
    } else {
        fields.fifth
    };
    if over.text.is_empty() {
        return Ok(());
    }
    Err(over.wrong(Refusal::FieldLeftOver))
}

// The card of that kind, with its number in the field after the letter. Refused by 22, 23 and 24.
fn card<'a, N: Arithmetic>(
    kind: Kind,
    number: Field<'a>,
    fields: Cut<'a>,
) -> Result<Placement<N>, Wrong>
    ensures { checked_by (meant_placement N.mean) result ≡ card_of N.ops kind (seen number.entry) (seen_cut fields.entry) }
{
    let number = Token::Number(number).count(kind)?;
    let tail = Token::Node(fields.tail).count(kind)?;
    let head = Token::Node(fields.head).count(kind)?;
    let value = Token::Value(fields.value).measure(kind)?;
    let start = start(kind, fields.fifth)?;
    none_over(kind, fields)?;
    Ok(Placement {
        number,
        kind: u32::from(kind),
        tail,
        head,
        value,
        start,
    })
}

// Letter first, number after. A line without fields, or whose first field begins with a star, is skipped.
pub(crate) fn read_line<N: Arithmetic>(line: &[u8]) -> Result<Option<Placement<N>>, Wrong>
    ensures { checked_by (meant_card N.mean) result ≡ line_of N.ops line.now }
{
    let first = first_field(line);
    match first.text {
        [] | [STAR, ..] => Ok(None),
        [letter, number @ ..] => {
            // The letter's byte, counted from 1, is the number's place, counted from 0.
            let place = first.place + 1;
            let kind = Kind::try_from(*letter).map_err(|refusal| Wrong {
                refusal,
                byte: place,
            })?;
            let number = Field {
                text: number,
                place,
            };
            Ok(Some(card(kind, number, cut_after(line, first))?))
        }
    }
}
