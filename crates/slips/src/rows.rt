// Rows of a slip.
ghost use Rattle.std.specs.Prelude.{◌≡◌, ◌+◌, ◌≤◌, length};
ghost use Rattle.sheet.specs.Refusals.{told};
ghost use Rattle.slips.specs.Bits.{put_bits};
ghost use Rattle.slips.specs.Entries.{are_entries, entries_bits};
ghost use Rattle.slips.specs.Slips.{is_row, row_bits};
ghost use Rattle.slips.specs.Writing.{on_area, kept};

use crate::bits::put_word;
use crate::code::{code_of, is_entry};
use sheet::Refusal;

fn are_entries(entries: &[i8]) -> bool
    ensures { result ≡ are_entries entries.now }
{
    entries.iter().all(|entry| is_entry(*entry))
}

// A number that may come next and is at most 31, and 32 entries.
pub(crate) fn is_row(next: u32, number: u32, entries: &[i8]) -> bool
    ensures { result ≡ is_row next number entries.now }
{
    next <= number && number < 32 && entries.len() == 32 && are_entries(entries)
}

fn put_entries(area: &mut [u8; 280], at: usize, entries: &[i8])
    requires count { length entries.now ≡ 32 }
    requires within { at + 64 ≤ 2240 }
    ensures { area.new ≡ put_bits area.old at (entries_bits entries.now) }
{
    for (i, entry) in entries.iter().enumerate() {
        put_word(area, at + 2 * i, code_of(*entry), 2);
    }
}

// Puts a row in. Refused by 17, with the area left as it is.
pub(crate) fn put_row(
    area: &mut [u8],
    at: usize,
    number: u32,
    entries: &[i8],
) -> Result<(), Refusal>
    requires count { length entries.now ≡ 32 }
    requires within { at + 69 ≤ 2240 }
    ensures answers { told result ≡ on_area (length area.old) tt }
    ensures area { area.new ≡ kept (told result) area.old (put_bits area.old at (row_bits number entries.now)) }
{
    let Some(bits) = area.first_chunk_mut::<280>() else {
        return Err(Refusal::SlipAreaShort);
    };
    put_word(bits, at, number, 5);
    put_entries(bits, at + 5, entries);
    Ok(())
}
