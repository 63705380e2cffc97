// The drawing arithmetic: `f64` with each operation rounded once. A float is its own meaning.
ghost use Rattle.std.specs.Prelude.{◌≡◌, false, Float};
ghost use Rattle.arithmetic.specs.Ops.{capped};
ghost use Rattle.arithmetic.specs.Binary64.{nought, binary64_ops, Whole};
ghost use Rattle.std.proofs.Common.{rules};

use crate::interface::{Arithmetic, LARGEST};

impl Arithmetic for f64 {
    ghost Meaning = { Float };

    ghost mean = { λ x. x };

    ghost ops = { binary64_ops };

    ghost nil = { nought };

    const EXACT: bool = false;

    ghost EXACT = { false };

    ghost nought = { Prim.search rules };

    ghost lawful = { Prim.search rules };

    ghost onto = { Prim.search rules };

    fn zero() -> f64 {
        0.0
    }

    fn one() -> f64 {
        1.0
    }

    // No whole number up to the largest loses anything.
    fn whole(n: u64) -> f64
        ensures meaning { result ≡ binary64_ops.whole (capped n) }
        ensures exactly { Whole result (capped n) }
    {
        n.min(LARGEST) as f64
    }

    fn sum(self, other: f64) -> f64 {
        self + other
    }

    fn difference(self, other: f64) -> f64 {
        self - other
    }

    fn negative(self) -> f64 {
        -self
    }

    fn product(self, other: f64) -> f64 {
        self * other
    }

    fn quotient(self, other: f64) -> f64 {
        self / other
    }

    fn is_zero(self) -> bool {
        self == 0.0
    }

    fn is_sound(self) -> bool {
        self.is_finite()
    }
}
