// The entries of a row: -1, 0 or +1 at each of 32 places.
ghost use Rattle.std.specs.Prelude.{◌≡◌, ◌<◌, true, length};
ghost use Rattle.slips.specs.Entries.{code_of, is_entry, are_entries, is_in, entry_at, entries_of};

use sheet::Shown;
use std::array;

// 00 for 0, 01 for +1, 11 for -1. An entry comes as any i8, since a row with another is refused by 16: a narrower type
// would ask more of the caller.
pub(crate) fn code_of(entry: i8) -> u32
    ensures { result ≡ code_of entry }
{
    match entry {
        1 => 0b01,
        e if e < 0 => 0b11,
        _ => 0b00,
    }
}

pub(crate) fn is_entry(entry: i8) -> bool
    ensures { result ≡ is_entry entry }
{
    matches!(entry, -1 | 0 | 1)
}

// `topology` asks this too: to hand one shift and mask down to the sheet would be no plainer. Nor would a type for a place
// below 32: `entries_of` alone asks, and knows the bound.
fn is_in(place: u32, word: u32) -> bool
    requires { place < 32 }
    ensures { result ≡ is_in place word }
{
    word >> place & 1 == 1
}

// +1 for a member, -1 for one against, else 0: also where a place is against and no member, which `topology` takes as -1.
fn entry_at(row: Shown, place: u32) -> i8
    requires { place < 32 }
    ensures { result ≡ entry_at row.members row.against place }
{
    if !is_in(place, row.members) {
        0
    } else if is_in(place, row.against) {
        -1
    } else {
        1
    }
}

// The 32 entries of a row of two words.
pub fn entries_of(row: Shown) -> [i8; 32]
    ensures value { result ≡ entries_of row.members row.against }
    ensures count { length result ≡ 32 }
    ensures signs { are_entries result ≡ true }
{
    array::from_fn(|place| entry_at(row, place as u32))
}
