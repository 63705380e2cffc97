// A whole slip.
ghost use Rattle.std.specs.Prelude.{◌≡◌, length, MatchResult};
ghost use Rattle.sheet.specs.Refusals.{told};
ghost use Rattle.slips.specs.Writing.{blanked, slip_answer, Past, ReadsBack, ToldApart};

use crate::row::SlipRow;
use crate::writer::SlipWriter;
use sheet::Refusal;

// Writes a tree and rows, and answers the bytes used. Refused by 16 and 17; then an area of 280 bytes and more is blank.
pub fn write_slip(area: &mut [u8], tree: u32, rows: &[SlipRow]) -> Result<usize, Refusal>
    ensures answers { told result ≡ slip_answer (length area.old) rows.now }
    ensures slip { MatchResult result (ReadsBack (record { tree = tree; rows = rows.now }) area.new) (λ _. area.new ≡ blanked area.old) }
    ensures apart { ToldApart }
    ensures past { Past area.old area.new }
{
    let mut writer = SlipWriter::open(area, tree);
    for row in rows {
        writer.row(row.number, &row.entries)?;
    }
    writer.seal()
}
