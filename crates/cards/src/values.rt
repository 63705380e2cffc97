// Numerals in an arithmetic.
ghost use Rattle.std.specs.Prelude.{◌≡◌, not, ◌&&◌, ◌==◌};
ghost use Rattle.cards.specs.Cards.{checked_by, byte_of, measured};
ghost use Rattle.cards.specs.Fields.{seen};

use crate::fault::Wrong;
use crate::field::Field;
use crate::numeral::Numeral;
use arithmetic::{Arithmetic, may_divide};
use sheet::Refusal;

// A minus before 0 says nothing.
fn below_zero(n: Numeral) -> bool
    ensures { result ≡ (n.minus && not (n.top == 0)) }
{
    n.minus && n.top != 0
}

// The quotient that a field's numeral means. Refused by 23.
pub(crate) fn quotient_of<N: Arithmetic>(n: Numeral, field: Field) -> Result<N, Wrong>
    ensures { checked_by N.mean result ≡ measured N.ops (byte_of (seen field.entry)) n }
{
    let under = N::whole(n.under);
    if !may_divide(under) {
        return Err(field.wrong(Refusal::ZeroDenominator));
    }
    let value = N::whole(n.top).quotient(under);
    if below_zero(n) {
        return Ok(value.negative());
    }
    Ok(value)
}
