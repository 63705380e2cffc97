// The call that reads a text of cards.
ghost use Rattle.std.specs.Prelude.{◌≡◌, length};
ghost use Rattle.cards.specs.Following.{Accepts, Blames};
ghost use Rattle.cards.specs.Reading.{state_of, report, line_done, cards_read};
ghost use Rattle.sheet.specs.Meanings.{meant_sheet};

use crate::card::read_line;
use crate::fault::{Fault, Layer};
use crate::reader::{Line, Reader};
use arithmetic::Arithmetic;
use sheet::{Plan, Row};

// Places the card of a line, if it has one. A fault of the sheet is at byte 1.
fn place_line<N: Arithmetic>(line: Line, plan: &mut Plan, rows: &mut [Row<N>]) -> Result<(), Fault>
    ensures { state_of N.mean result plan.new rows.new ≡ line_done N.ops line.entry.number line.entry.text.now (meant_sheet N.mean (record { plan = plan.old; rows = rows.old })) }
{
    let number = line.number;
    let card = read_line(line.text).map_err(|wrong| wrong.at(number))?;
    let Some(placement) = card else {
        return Ok(());
    };
    plan.place(rows, placement).map_err(|refusal| Fault {
        layer: Layer::Sheet,
        refusal,
        line: number,
        byte: 1,
    })
}

// Blanks the sheet and places the cards of a text on it, up to the first fault. Refused by 1, with nothing blanked, at
// line 0; else by the card rules or by the sheet, at that line and byte, with the cards before it placed.
pub fn read_cards<N: Arithmetic>(
    input: &[u8],
    plan: &mut Plan,
    rows: &mut [Row<N>],
) -> Result<(), Fault>
    ensures accepts { Accepts N.ops input.now (length rows.old) (report result) (meant_sheet N.mean (record { plan = plan.new; rows = rows.new })) }
    ensures blames { Blames N.ops input.now (length rows.old) (meant_sheet N.mean (record { plan = plan.old; rows = rows.old })) (report result) (meant_sheet N.mean (record { plan = plan.new; rows = rows.new })) }
    ensures reads { state_of N.mean result plan.new rows.new ≡ cards_read N.ops input.now (meant_sheet N.mean (record { plan = plan.old; rows = rows.old })) }
{
    plan.blank(rows).map_err(|refusal| Fault {
        layer: Layer::Sheet,
        refusal,
        line: 0,
        byte: 0,
    })?;
    for line in Reader::new(input) {
        place_line(line, plan, rows)?;
    }
    Ok(())
}
