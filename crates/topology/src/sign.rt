// The sign of a branch at a node, in a loop or across a cut.
ghost use Rattle.std.specs.Prelude.{◌≡◌};
ghost use Rattle.graphs.specs.Cuts.{turned};
ghost use Rattle.topology.specs.Rows.{sign_of};

use std::ops::Neg;

#[derive(Clone, Copy, PartialEq, Eq, Debug)]
pub enum Sign {
    Plus,
    Zero,
    Minus,
}

impl Neg for Sign {
    type Output = Sign;

    ghost neg_gives = { λ x r. sign_of r ≡ turned (sign_of x) };

    fn neg(self) -> Sign {
        match self {
            Sign::Plus => Sign::Minus,
            Sign::Zero => Sign::Zero,
            Sign::Minus => Sign::Plus,
        }
    }
}
