// Linear systems of at most 15 unknowns over any arithmetic, solved in place.
#![tactic(auto, using(linear::proofs::Turns::turns))]

ghost use Rattle.std.specs.Prelude.{◌≡◌, ℕ, ◌<◌, ◌≤◌, true, T, map, length, is_ok, Err, slice_set};
ghost use Rattle.linear.specs.Elimination.{cell, entry, clear, eliminate_column, eliminate, lose_found, divide, back_row, back, solved};
ghost use Rattle.linear.specs.Inside.{Outside};
ghost use Rattle.linear.specs.Systems.{member, Solution, TrivialKernel, Singular, found};
ghost use Rattle.solver.specs.System.{Becomes};
ghost use Rattle.solver.specs.Answer.{fits, answered, answer, leaves, pivot};

mod rows;
mod system;

use crate::rows::{lose_row, swap_rows};
use crate::system::System;
use arithmetic::{Arithmetic, may_divide};
use linear::{get, place, put};

// The most unknowns that a system may have, and the places that solving one asks for.
pub const MOST_UNKNOWNS: usize = 15;

pub const PLACES: usize = 304;

// Why a system is not solved.
#[derive(Clone, Copy, PartialEq, Eq, Debug)]
pub enum Unsolved {
    // More than 15 unknowns, or fewer than 304 places.
    NoRoom,
    // A column without an entry that may be divided by, at or below its own row.
    NoPivot,
}

impl<N: Arithmetic> System<'_, N> {
    // What stands in a row and a column.
    fn read(&self, row: u32, column: u32) -> N
        ensures { N.mean result ≡ entry N.ops (map N.mean self.now.work.now) row column }
    {
        get(self.work, place(row, column))
    }

    fn write(&mut self, row: u32, column: u32, value: N)
        ensures { Becomes N.mean (λ w. slice_set w (cell row column) (N.mean value)) self.old self.new }
    {
        put(self.work, place(row, column), value);
    }

    // Every row below the pivot's loses its multiple of it, in turn.
    fn clear_below(&mut self, pivot: u32)
        ensures { Becomes N.mean (clear N.ops self.old.unknowns pivot) self.old self.new }
    {
        let unknowns = self.unknowns;
        for row in pivot.saturating_add(1)..unknowns {
            lose_row(self.work, unknowns, pivot, row);
        }
    }

    // The first row at or below a column's own whose entry may be divided by.
    fn pivot_row(&self, column: u32) -> Option<u32>
        ensures { result ≡ pivot N.ops self.now.unknowns column (map N.mean self.now.work.now) }
    {
        (column..self.unknowns).find(|row| may_divide(self.read(*row, column)))
    }

    // Swaps the pivot's row up and clears the rows below. Nothing changes where the column has no pivot.
    #[tactic(auto, using(crate::proofs::Law::pivot_from))]
    fn eliminate_column(&mut self, column: u32) -> Result<(), Unsolved>
        ensures answer { result ≡ answered true (eliminate_column N.ops self.old.unknowns column (map N.mean self.old.work.now)).ok }
        ensures left { Becomes N.mean (λ w. (eliminate_column N.ops self.old.unknowns column w).left) self.old self.new }
    {
        let pivot = self.pivot_row(column).ok_or(Unsolved::NoPivot)?;
        swap_rows(self.work, self.unknowns, column, pivot);
        self.clear_below(column);
        Ok(())
    }

    // The columns in turn, as long as each has a pivot.
    fn eliminate_all(&mut self) -> Result<(), Unsolved>
        ensures answer { result ≡ answered true (eliminate N.ops self.old.unknowns (map N.mean self.old.work.now)).ok }
        ensures left { Becomes N.mean (λ w. (eliminate N.ops self.old.unknowns w).left) self.old self.new }
    {
        for column in 0..self.unknowns {
            self.eliminate_column(column)?;
        }
        Ok(())
    }

    // A row's right side loses entry × found value in a column.
    fn lose_found(&mut self, row: u32, column: u32)
        ensures { Becomes N.mean (lose_found N.ops self.old.unknowns row column) self.old self.new }
    {
        let right = self.unknowns;
        let lost = self.read(row, column).product(self.read(column, right));
        let rest = self.read(row, right).difference(lost);
        self.write(row, right, rest);
    }

    // A row's right side is divided by the pivot: the found value stands in its place.
    fn divide_row(&mut self, row: u32)
        ensures { Becomes N.mean (divide N.ops self.old.unknowns row) self.old self.new }
    {
        let right = self.unknowns;
        let found = self.read(row, right).quotient(self.read(row, row));
        self.write(row, right, found);
    }

    // Finds a row's unknown from those of the rows below, columns ascending.
    fn back_row(&mut self, row: u32)
        ensures { Becomes N.mean (back_row N.ops self.old.unknowns row) self.old self.new }
    {
        let unknowns = self.unknowns;
        for column in row.saturating_add(1)..unknowns {
            self.lose_found(row, column);
        }
        self.divide_row(row);
    }

    // Back substitution, from the last row up.
    fn back_all(&mut self)
        ensures { Becomes N.mean (back N.ops self.old.unknowns) self.old self.new }
    {
        for row in (0..self.unknowns).rev() {
            self.back_row(row);
        }
    }
}

// Elimination, and back substitution where every column had a pivot.
fn attempt<N: Arithmetic>(work: &mut [N], unknowns: u32) -> Result<(), Unsolved>
    requires few { unknowns ≤ 15 }
    requires room { 304 ≤ length work.old }
    ensures answer { result ≡ answered true (solved N.ops unknowns (map N.mean work.old)).ok }
    ensures left { map N.mean work.new ≡ (solved N.ops unknowns (map N.mean work.old)).left }
{
    let mut system = System { work, unknowns };
    system.eliminate_all()?;
    system.back_all();
    Ok(())
}

fn has_room(unknowns: usize, places: usize) -> bool
    ensures { result ≡ fits unknowns places }
{
    unknowns <= MOST_UNKNOWNS && places >= PLACES
}

// Solves the system of so many unknowns in place: each found value stands where its row's right side stood.
pub fn solve<N: Arithmetic>(work: &mut [N], unknowns: usize) -> Result<(), Unsolved>
    ensures answer { result ≡ answer N.ops unknowns (map N.mean work.old) }
    ensures left { map N.mean work.new ≡ leaves N.ops unknowns (map N.mean work.old) }
    ensures alone { result ≡ Err Unsolved.NoRoom → work.new ≡ work.old }
    ensures around { (k : ℕ) → Outside unknowns k → member N.ops (map N.mean work.new) k ≡ member N.ops (map N.mean work.old) k }
    ensures solves { T N.EXACT → is_ok result ≡ true → Solution N.ops unknowns (map N.mean work.old) (found N.ops unknowns (map N.mean work.new)) }
    ensures regular { T N.EXACT → is_ok result ≡ true → TrivialKernel N.ops unknowns (map N.mean work.old) }
    ensures granted { T N.EXACT → fits unknowns (length work.old) ≡ true → TrivialKernel N.ops unknowns (map N.mean work.old) → is_ok result ≡ true }
    ensures singular { T N.EXACT → result ≡ Err Unsolved.NoPivot → Singular N.ops unknowns (map N.mean work.old) }
{
    if !has_room(unknowns, work.len()) {
        return Err(Unsolved::NoRoom);
    }
    attempt(work, unknowns as u32)
}
