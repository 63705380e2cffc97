// Which refusal, or which branch and first row, a placement gives on an empty place.
ghost use Rattle.std.specs.Prelude.{◌≡◌};
ghost use Rattle.sheet.specs.Calls.{valued, drawn, takes_value, takes_start, admitted};
ghost use Rattle.sheet.specs.Refusals.{told};

use crate::branch::Branch;
use crate::ends::Ends;
use crate::kind::Kind;
use crate::placement::Placement;
use crate::refusal::Refusal;
use crate::row::Row;
use arithmetic::{Arithmetic, may_divide};

// Refusals 5 to 9 in that order, or the branch with its first row: an inductor starts with a current, a capacitor with a
// voltage. One match over kinds decides it all, with guards on value and start.
pub(crate) fn admit<N: Arithmetic>(p: Placement<N>) -> Result<(Branch, Row<N>), Refusal>
    ensures { told result ≡ admitted (valued N.ops N.mean N.nil) p }
{
    let (start, zero) = (p.start, N::zero());
    match (Kind::try_from(p.kind), drawn(p.tail, p.head)) {
        (Err(refusal), _) | (Ok(_), Err(refusal)) => Err(refusal),
        (Ok(kind), Ok(_)) if !takes_value(kind, p.value) => Err(Refusal::BadValue),
        (Ok(kind), Ok(_)) if !takes_start(kind, start) => Err(Refusal::BadStart),
        (Ok(kind @ (Kind::Resistor | Kind::VoltageSource | Kind::CurrentSource)), Ok(ends)) => Ok(
            begun(kind, ends, p, zero, zero),
        ),
        (Ok(kind @ Kind::Inductor), Ok(ends)) => Ok(begun(kind, ends, p, start, zero)),
        (Ok(kind @ Kind::Capacitor), Ok(ends)) => Ok(begun(kind, ends, p, zero, start)),
    }
}

// 6 for a node above 15, 7 for a tail that is the head, or the ends.
#[tactic(auto, unfolding(crate::specs::Calls::drawn))]
fn drawn(tail: u32, head: u32) -> Result<Ends, Refusal>
    ensures { told result ≡ drawn tail head }
{
    if tail > 15 || head > 15 {
        return Err(Refusal::NoSuchNode);
    }
    if tail == head {
        return Err(Refusal::EndsMeet);
    }
    Ok(Ends {
        tail: tail as u8,
        head: head as u8,
    })
}

// A value is sound, and that of a resistor, an inductor or a capacitor may be divided by.
pub(crate) fn takes_value<N: Arithmetic>(kind: Kind, value: N) -> bool
    ensures { result ≡ takes_value (valued N.ops N.mean N.nil) kind value }
{
    value.is_sound() && (kind.is_source() || may_divide(value))
}

// A start is sound, and zero but on an inductor or a capacitor.
fn takes_start<N: Arithmetic>(kind: Kind, start: N) -> bool
    ensures { result ≡ takes_start (valued N.ops N.mean N.nil) kind start }
{
    start.is_sound() && (kind.has_start() || start.is_zero())
}

// The branch of that kind with those ends, and its row with that current and voltage.
fn begun<N: Copy>(
    kind: Kind,
    ends: Ends,
    p: Placement<N>,
    current: N,
    voltage: N,
) -> (Branch, Row<N>)
    ensures branch { result.0 ≡ record { kind = kind; ends = ends } }
    ensures row { result.1 ≡ record { value = p.value; start = p.start; current = current; voltage = voltage } }
{
    let row = Row {
        value: p.value,
        start: p.start,
        current,
        voltage,
    };
    (Branch { kind, ends }, row)
}
