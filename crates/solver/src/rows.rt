// Rows of a system, each in a list of its own.
ghost use Rattle.std.specs.Prelude.{◌≡◌, ◌<◌, ◌≤◌, map, length};
ghost use Rattle.linear.specs.Elimination.{lose_row, swap_rows};
ghost use Rattle.solver.specs.Rows.{lose_all, two, swap_all};

use arithmetic::Arithmetic;
use linear::{get, place};
use std::mem;

// The lower row loses factor × the upper one, from the pivot's column to the right side.
#[tactic(auto, using(linear::proofs::Turns::turns, crate::proofs::Losing::entry_lost))]
fn lose<N: Arithmetic>(upper: &[N], lower: &mut [N], factor: N, pivot: u32, unknowns: u32)
    requires few { unknowns ≤ 15 }
    requires upper { unknowns < length upper.now }
    requires lower { unknowns < length lower.old }
    ensures { map N.mean lower.new ≡ lose_all N.ops (map N.mean upper.now) (N.mean factor) unknowns pivot (map N.mean lower.old) }
{
    for column in pivot as usize..unknowns as usize + 1 {
        lower[column] = lower[column].difference(factor.product(upper[column]));
    }
}

// A row loses entry / pivot × the pivot's row, from the pivot's column to the right side.
#[tactic(auto, using(crate::proofs::Losing::row_lost))]
pub(crate) fn lose_row<N: Arithmetic>(work: &mut [N], unknowns: u32, pivot: u32, row: u32)
    requires few { unknowns ≤ 15 }
    requires room { 304 ≤ length work.old }
    requires above { pivot < row }
    requires within { row < unknowns }
    ensures { map N.mean work.new ≡ lose_row N.ops unknowns pivot row (map N.mean work.old) }
{
    let factor = get(work, place(row, pivot)).quotient(get(work, place(pivot, pivot)));
    let (above, below) = work.split_at_mut(place(row, 0));
    lose(&above[place(pivot, 0)..], below, factor, pivot, unknowns);
}

// The two rows change places from the first column to the right side.
#[tactic(auto, using(linear::proofs::Turns::turns, crate::proofs::Swapping::entries_swapped))]
fn exchange<N: Arithmetic>(upper: &mut [N], lower: &mut [N], unknowns: u32)
    requires few { unknowns ≤ 15 }
    requires upper { unknowns < length upper.old }
    requires lower { unknowns < length lower.old }
    ensures { two (map N.mean upper.new) (map N.mean lower.new) ≡ swap_all N.ops unknowns (map N.mean upper.old) (map N.mean lower.old) }
{
    for column in 0..unknowns as usize + 1 {
        mem::swap(&mut upper[column], &mut lower[column]);
    }
}

// Two whole rows change places, their right sides too.
#[tactic(auto, using(crate::proofs::Swapping::same_row, crate::proofs::Swapping::rows_swapped))]
pub(crate) fn swap_rows<N: Arithmetic>(work: &mut [N], unknowns: u32, upper: u32, lower: u32)
    requires few { unknowns ≤ 15 }
    requires room { 304 ≤ length work.old }
    requires order { upper ≤ lower }
    requires within { lower < unknowns }
    ensures { map N.mean work.new ≡ swap_rows N.ops unknowns upper lower (map N.mean work.old) }
{
    if upper == lower {
        return;
    }
    let (above, below) = work.split_at_mut(place(lower, 0));
    let (_, above) = above.split_at_mut(place(upper, 0));
    exchange(above, below, unknowns);
}
