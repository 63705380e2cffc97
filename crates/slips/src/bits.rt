// Bits put into an area that holds zero bits there. Each call is told its place: a pen that keeps area and place would owe
// two clauses more at every call, which area it writes to and where it stands.
ghost use Rattle.std.specs.Prelude.{◌≡◌, ◌+◌, ◌<◌, ◌≤◌};
ghost use Rattle.slips.specs.Writing.{opened, blanked, Past};
ghost use Rattle.slips.specs.Bits.{put_bit, put_bits, high};

// Place 0 is the most significant bit of byte 0.
fn put_bit(area: &mut [u8; 280], at: usize, bit: u32)
    requires bit { bit < 2 }
    requires within { at < 2240 }
    ensures { area.new ≡ put_bit area.old at bit }
{
    area[at / 8] |= (bit << (7 - at % 8)) as u8;
}

// The last `count` bits of a word, most significant first.
pub(crate) fn put_word(area: &mut [u8; 280], at: usize, word: u32, count: u32)
    requires count { count ≤ 32 }
    requires within { at + count ≤ 2240 }
    ensures { area.new ≡ put_bits area.old at (high count word) }
{
    for i in 0..count {
        put_bit(area, at + i as usize, word >> (count - 1 - i) & 1);
    }
}

// Zeroes 280 bytes; a shorter area is left as it is.
pub(crate) fn blank_area(area: &mut [u8])
    ensures area { area.new ≡ blanked area.old }
    ensures past { Past area.old area.new }
{
    if area.len() >= 280 {
        area[..280].fill(0);
    }
}

// Zeroes 280 bytes and writes the tree, place 0 first; a shorter area is left as it is.
pub(crate) fn open_area(area: &mut [u8], tree: u32)
    ensures area { area.new ≡ opened tree area.old }
    ensures past { Past area.old area.new }
{
    blank_area(area);
    if let Some(bits) = area.first_chunk_mut::<280>() {
        put_word(bits, 0, tree.reverse_bits(), 32);
    }
}
