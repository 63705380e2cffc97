// Linear systems in place: where they stand, the definitions of elimination and back substitution, and the theory of
// linear systems.
#![tactic(auto)]

ghost use Rattle.std.specs.Prelude.{T};
ghost use Rattle.linear.specs.Inside.{Inside};
ghost use Rattle.linear.specs.Systems.{LinearSystems};

mod area;

pub use area::{get, place, put};
use arithmetic::Arithmetic;

// In an exact arithmetic: where every column finds a pivot the found values solve the system and nothing else does;
// where one finds none, some list that is not all zero goes to zero.
pub fn linear_systems_stand<N: Arithmetic>()
    ensures { T N.EXACT → LinearSystems N.ops }
{}

// In every arithmetic: solving reads and writes nothing but the entries and the right sides of the system.
pub fn solving_stays_inside<N: Arithmetic>()
    ensures { Inside N.ops }
{}
