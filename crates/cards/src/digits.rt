// Texts of numbers: sign first, digits after.
ghost use Rattle.std.specs.Prelude.{◌≡◌, ◌≤◌};
ghost use Rattle.cards.specs.Numerals.{plain, whole, ratio, signed};

use crate::numeral::Numeral;

// The most digits of a branch or node number.
const NUMBER_DIGITS: usize = 6;

// The most digits of a value's or a start's whole numbers: another rule than that of numbers, with the same limit today.
const VALUE_DIGITS: usize = 6;

// The number that the digits write, at least one and at most so many. The library's `parse` takes a plus too.
fn digits(text: &[u8], most: usize) -> Option<u64>
    requires { most ≤ 10 }
    ensures { result ≡ plain most text.now }
{
    if text.is_empty() || text.len() > most {
        return None;
    }
    let mut n = 0;
    for d in text {
        if !d.is_ascii_digit() {
            return None;
        }
        n = n * 10 + u64::from(*d - b'0');
    }
    Some(n)
}

// Digits of a branch or node number, over 1.
pub(crate) fn whole_of(text: &[u8]) -> Option<Numeral>
    ensures { result ≡ whole text.now }
{
    let top = digits(text, NUMBER_DIGITS)?;
    Some(Numeral {
        minus: false,
        top,
        under: 1,
    })
}

// Digits, or digits over digits; 1 stands under digits alone.
pub(crate) fn ratio_of(text: &[u8]) -> Option<Numeral>
    ensures { result ≡ ratio text.now }
{
    let (top, under) = match text.iter().position(|b| *b == b'/') {
        None => (digits(text, VALUE_DIGITS)?, 1),
        Some(end) => (
            digits(&text[..end], VALUE_DIGITS)?,
            digits(&text[end + 1..], VALUE_DIGITS)?,
        ),
    };
    Some(Numeral {
        minus: false,
        top,
        under,
    })
}

// The same, and a minus may stand before it.
pub(crate) fn signed_of(text: &[u8]) -> Option<Numeral>
    ensures { result ≡ signed text.now }
{
    match text {
        [b'-', digits @ ..] => ratio_of(digits).map(|n| Numeral { minus: true, ..n }),
        _ => ratio_of(text),
    }
}
