// The checking arithmetic: remainders modulo 8,191. A value is a 16-bit number, whichever, and its meaning is its
// remainder; every answered value is below 8,191. That stands in each contract and in no type, since any 16-bit number is
// taken as a value.
ghost use Rattle.std.specs.Prelude.{◌≡◌, ◌<◌, true};
ghost use Rattle.arithmetic.specs.Ops.{capped};
ghost use Rattle.arithmetic.specs.Residues.{Residue, residue, residue_ops};
ghost use Rattle.arithmetic.specs.ResidueLaws.{residue_laws, residue_of};
ghost use Rattle.std.proofs.Common.{rules};

use crate::interface::{Arithmetic, LARGEST};
use inverses::inverse;

const MODULUS: u32 = 8191;

const ZERO: u16 = 0;

// The remainder of n.
fn remainder(n: u32) -> u16
    ensures meaning { residue result ≡ residue n }
    ensures below { result < 8191 }
    ensures value { result ≡ (residue n).0 }
{
    (n % MODULUS) as u16
}

// The remainder that a value means, 0 to 8,190.
pub fn remainder_of(value: u16) -> u16
    ensures { result ≡ (residue value).0 }
{
    remainder(value as u32)
}

impl Arithmetic for u16 {
    ghost Meaning = { Residue };

    ghost mean = { residue };

    ghost ops = { residue_ops };

    ghost nil = { 0 };

    const EXACT: bool = true;

    ghost EXACT = { true };

    ghost nought = { Prim.search rules };

    ghost lawful = { λ _. residue_laws };

    ghost onto = { λ _ m. (m.0, residue_of m) };

    fn zero() -> u16
        ensures value { result ≡ 0 }
        ensures meaning { residue result ≡ residue_ops.nought }
        ensures below { result < 8191 }
    {
        ZERO
    }

    fn one() -> u16
        ensures meaning { residue result ≡ residue_ops.one }
        ensures below { result < 8191 }
    {
        remainder(1)
    }

    fn whole(n: u64) -> u16
        ensures meaning { residue result ≡ residue_ops.whole (capped n) }
        ensures below { result < 8191 }
    {
        remainder(n.min(LARGEST) as u32)
    }

    fn sum(self, other: u16) -> u16
        ensures meaning { residue result ≡ residue_ops.add (residue self) (residue other) }
        ensures below { result < 8191 }
    {
        remainder(self as u32 + other as u32)
    }

    fn difference(self, other: u16) -> u16
        ensures meaning { residue result ≡ residue_ops.sub (residue self) (residue other) }
        ensures below { result < 8191 }
    {
        remainder(self as u32 + (MODULUS - other as u32 % MODULUS))
    }

    fn negative(self) -> u16
        ensures meaning { residue result ≡ residue_ops.neg (residue self) }
        ensures below { result < 8191 }
    {
        remainder(MODULUS - self as u32 % MODULUS)
    }

    fn product(self, other: u16) -> u16
        ensures meaning { residue result ≡ residue_ops.mul (residue self) (residue other) }
        ensures below { result < 8191 }
    {
        remainder(self as u32 * other as u32)
    }

    fn quotient(self, other: u16) -> u16
        ensures meaning { residue result ≡ residue_ops.div (residue self) (residue other) }
        ensures below { result < 8191 }
    {
        remainder(self as u32 * inverse(other) as u32)
    }

    fn is_zero(self) -> bool {
        self as u32 % MODULUS == 0
    }

    fn is_sound(self) -> bool {
        true
    }
}
