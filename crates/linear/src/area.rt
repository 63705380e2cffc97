// The list of places that holds a system, read and written at any place: past its end a read is zero and a write is lost.
ghost use Rattle.std.specs.Prelude.{◌≡◌, map, slice_index_or, slice_set};
ghost use Rattle.linear.specs.Elimination.{cell};

use arithmetic::Arithmetic;

// Where the first row begins, and how far apart the rows are.
const FIRST: usize = 64;

const WIDTH: usize = 16;

pub fn get<N: Arithmetic>(area: &[N], place: usize) -> N
    ensures { N.mean result ≡ slice_index_or (map N.mean area.now) place N.ops.nought }
{
    area.get(place).copied().unwrap_or(N::zero())
}

// By its place: tried with the library's `get_mut`, and the proof did not close.
pub fn put<N: Arithmetic>(area: &mut [N], place: usize, value: N)
    ensures { map N.mean area.new ≡ slice_set (map N.mean area.old) place (N.mean value) }
{
    if place < area.len() {
        area[place] = value;
    }
}

// Where the entry of a row in a column stands; the right side of each row stands in the column after the last.
pub fn place(row: u32, column: u32) -> usize
    ensures { result ≡ cell row column }
{
    FIRST + row as usize * WIDTH + column as usize
}
