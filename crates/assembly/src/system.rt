// The matrix and the right side of a step's system. The unknowns are the voltages of the tree branches that are no
// voltage source, lower numbers first. A `Setting` only reads the area, which is written here: a type for frame, area
// and rows would owe in each contract that frame and rows stay. The parts are any, as in `Setting`.
ghost use Rattle.std.specs.List.{range_with_len};
ghost use Rattle.std.specs.Prelude.{◌≡◌, count_by, map, slice_set};
ghost use Rattle.assembly.specs.Frames.{Frames, Holds, Levels, Sets, levels_of, entered, system_of};
ghost use Rattle.graphs.specs.Graph.{◌∈◌, count};
ghost use Rattle.linear.specs.Elimination.{cell};
ghost use Rattle.stories.specs.Assembly.{Parts, entry_of, with_row};
ghost use Rattle.networks.specs.Words.{bits};

use crate::frame::Frame;
use crate::setting::Setting;
use arithmetic::Arithmetic;
use linear::{place, put};
use networks::members_of;
use sheet::Row;

// How many members of a word are below k: the place of k among them.
pub(crate) fn place_among(word: u32, k: u32) -> u32
    ensures { result ≡ count_by (bits word) (range_with_len 0 k) }
{
    (u64::from(word) & ((1 << k.min(32)) - 1)).count_ones()
}

// The entry of the unknowns t and r.
fn write_entry<N: Arithmetic>(frame: &Frame, area: &mut [N], rows: &[Row<N>], t: u32, r: u32)
    ensures { (c : Parts N.Meaning) → Sets N.ops N.mean c frame.now area.old rows.now → t ∈ c.tree → r ∈ c.unknown → map N.mean area.new ≡ slice_set (map N.mean area.old) (cell (count c.unknown t) (count c.unknown r)) (entry_of N.ops c t r) }
{
    let entry = Setting { frame, area, rows }.entry_of(t, r);
    let row = place_among(frame.unknown, t);
    let column = place_among(frame.unknown, r);
    put(area, place(row, column), entry);
}

// All entries of the unknown t.
fn write_entries<N: Arithmetic>(frame: &Frame, area: &mut [N], rows: &[Row<N>], t: u32)
    ensures { (c : Parts N.Meaning) → Sets N.ops N.mean c frame.now area.old rows.now → t ∈ c.tree → map N.mean area.new ≡ entered N.ops c t (map N.mean area.old) }
{
    for r in members_of(frame.unknown) {
        write_entry(frame, area, rows, t, r);
    }
}

// The row of the unknown t with its right side.
fn write_row<N: Arithmetic>(frame: &Frame, area: &mut [N], rows: &[Row<N>], t: u32)
    ensures { (c : Parts N.Meaning) → Sets N.ops N.mean c frame.now area.old rows.now → t ∈ c.unknown → map N.mean area.new ≡ with_row N.ops c t (map N.mean area.old) }
{
    write_entries(frame, area, rows, t);
    let right = Setting { frame, area, rows }.right_of(t);
    let row = place_among(frame.unknown, t);
    let column = place_among(frame.unknown, 32);
    put(area, place(row, column), right);
}

// The whole system, lower unknowns first; answers how many unknowns there are.
pub fn assemble<N: Arithmetic>(frame: &Frame, area: &mut [N], rows: &[Row<N>]) -> u32
    ensures unknowns { result ≡ count (bits frame.now.unknown) 32 }
    ensures system { (c : Parts N.Meaning) → Frames c frame.now → Holds N.ops c (map N.mean area.old) → Levels c (levels_of N.ops N.mean rows.now) → map N.mean area.new ≡ system_of N.ops c (map N.mean area.old) }
{
    for t in members_of(frame.unknown) {
        write_row(frame, area, rows, t);
    }
    place_among(frame.unknown, 32)
}
