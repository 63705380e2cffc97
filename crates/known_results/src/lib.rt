// Known results: small circuits and numbers whose answers are worked out by hand. specs/Table.antt has the table.
#![tactic(auto)]

ghost use Rattle.known_results.specs.Table.{KnownResults};

use arithmetic::Arithmetic;

// The definitions that the contracts cite give every known answer.
pub fn known_results_stand<N: Arithmetic>()
    ensures { KnownResults N.ops }
{}
