// What a step's sums are made of, and the sums that its system needs.
ghost use Rattle.std.specs.Prelude.{◌≡◌, ◌<◌};
ghost use Rattle.assembly.specs.Frames.{Sets, levels_of};
ghost use Rattle.graphs.specs.Graph.{◌∈◌};
ghost use Rattle.stories.specs.Assembly.{Parts, entry_of, fed, levelled, right_of};

use crate::frame::Frame;
use crate::gathering::gather_row;
use crate::rows::{agreement, turn_row};
use arithmetic::Arithmetic;
use linear::get;
use networks::members_of;
use sheet::Row;

// The frame, the area with the companions of the branches, and the rows with the voltages of the sources. The contracts
// speak of any parts that these have (`Sets`) and of the parts' tree: a ghost field would ask callers for some parts.
#[derive(Clone, Copy)]
pub struct Setting<'a, N> {
    pub frame: &'a Frame,
    pub area: &'a [N],
    pub rows: &'a [Row<N>],
}

impl<'a, N: Arithmetic> Setting<'a, N> {
    // The matrix entry of two unknowns: the conductances in both their cuts, by the agreement of the signs.
    pub(crate) fn entry_of(&self, t: u32, r: u32) -> N
        ensures { (c : Parts N.Meaning) → Sets N.ops N.mean c self.now.frame.now self.now.area.now self.now.rows.now → t ∈ c.tree → r ∈ c.tree → N.mean result ≡ entry_of N.ops c t r }
    {
        let row = agreement(self.frame.cut(t), self.frame.cut(r));
        gather_row(
            self.frame.passive,
            row,
            |k| get(self.area, k as usize),
            N::zero(),
        )
    }

    // What the branches of an unknown's cut feed it: subtracted where they leave it.
    fn feeds_of(&self, t: u32) -> N
        ensures { (c : Parts N.Meaning) → Sets N.ops N.mean c self.now.frame.now self.now.area.now self.now.rows.now → t ∈ c.tree → N.mean result ≡ fed N.ops c t }
    {
        let row = turn_row(self.frame.cut(t));
        gather_row(
            self.frame.feeding,
            row,
            |k| get(self.area, 32 + k as usize),
            N::zero(),
        )
    }

    // The voltage of a voltage source; zero where there is no such row.
    pub(crate) fn level(&self, v: u32) -> N
        ensures { N.mean result ≡ levels_of N.ops N.mean self.now.rows.now v }
    {
        self.rows.get(v as usize).map_or(N::zero(), |row| row.value)
    }

    // A right side once the voltage source v has been taken to it.
    fn level_by(&self, t: u32, v: u32, sum: N) -> N
        ensures { (c : Parts N.Meaning) → Sets N.ops N.mean c self.now.frame.now self.now.area.now self.now.rows.now → t ∈ c.tree → v < 32 → v ∈ c.fixed → N.mean result ≡ levelled N.ops c t v (N.mean sum) }
    {
        let row = turn_row(agreement(self.frame.cut(t), self.frame.cut(v)));
        let level = self.level(v);
        gather_row(
            self.frame.passive,
            row,
            |k| get(self.area, k as usize).product(level),
            sum,
        )
    }

    // The right side of an unknown: its feeds, then each voltage source in turn.
    pub(crate) fn right_of(&self, t: u32) -> N
        ensures { (c : Parts N.Meaning) → Sets N.ops N.mean c self.now.frame.now self.now.area.now self.now.rows.now → t ∈ c.tree → N.mean result ≡ right_of N.ops c t }
    {
        let mut sum = self.feeds_of(t);
        for v in members_of(self.frame.fixed) {
            sum = self.level_by(t, v, sum);
        }
        sum
    }
}
