// Sheets that are read from cards, in any arithmetic.
ghost use Rattle.std.specs.Prelude.{◌≡◌, Some, None, IfOk, IfErr};
ghost use Rattle.cards.specs.Following.{blank_sheet};
ghost use Rattle.cards.specs.Reading.{cards_read, named};
ghost use Rattle.sheet.specs.Meanings.{meant_sheet};

use arithmetic::Arithmetic;
use cards::{Fault, read_cards};
use sheet::{Plan, Row, fresh_rows};

// A plan with its rows.
#[derive(Drop)]
pub struct CardSheet<N> {
    pub plan: Plan,
    pub rows: [Row<N>; 32],
}

// The sheet of a card file, or the first fault.
pub(crate) fn read_sheet<N: Arithmetic>(input: &[u8]) -> Result<CardSheet<N>, Fault>
    ensures sheet { IfOk result (λ s. record { fault = None; sheet = meant_sheet N.mean (record { plan = s.plan; rows = s.rows }) } ≡ cards_read N.ops input.now (blank_sheet N.ops)) }
    ensures fault { IfErr result (λ f. Some (named f) ≡ (cards_read N.ops input.now (blank_sheet N.ops)).fault) }
{
    let (mut plan, mut rows) = (Plan::empty(), fresh_rows());
    read_cards(input, &mut plan, &mut rows)?;
    Ok(CardSheet { plan, rows })
}
