// The interface of every arithmetic. The operations on meanings and the exact laws are in specs/Ops.antt.
ghost use Rattle.std.specs.Prelude.{◌≡◌, ℕ, Bool, T};
ghost use Rattle.arithmetic.specs.Ops.{Ops, Exact, capped, may_divide};

// The largest whole number that an arithmetic is asked for; more is taken as this.
pub const LARGEST: u64 = 999_999;

pub trait Arithmetic: Copy {
    // What values mean, and the operations on meanings.
    ghost Meaning: { Type 0 };

    ghost mean: { Self → Meaning };

    ghost ops: { Ops Meaning };

    // The value that `zero` answers.
    ghost nil: { Self };

    // Whether the arithmetic is exact, and owes the laws below.
    const EXACT: bool;

    ghost EXACT: { Bool };

    fn zero() -> Self
        ensures value { result ≡ nil }
        ensures meaning { mean result ≡ ops.nought };

    fn one() -> Self
        ensures meaning { mean result ≡ ops.one };

    fn whole(n: u64) -> Self
        ensures meaning { mean result ≡ ops.whole (capped n) };

    fn sum(self, other: Self) -> Self
        ensures meaning { mean result ≡ ops.add (mean self) (mean other) };

    fn difference(self, other: Self) -> Self
        ensures meaning { mean result ≡ ops.sub (mean self) (mean other) };

    fn negative(self) -> Self
        ensures meaning { mean result ≡ ops.neg (mean self) };

    fn product(self, other: Self) -> Self
        ensures meaning { mean result ≡ ops.mul (mean self) (mean other) };

    fn quotient(self, other: Self) -> Self
        ensures meaning { mean result ≡ ops.div (mean self) (mean other) };

    fn is_zero(self) -> bool
        ensures { result ≡ ops.is_zero (mean self) };

    fn is_sound(self) -> bool
        ensures { result ≡ ops.is_sound (mean self) };

    ghost nought: { mean nil ≡ ops.nought };

    // What an exact arithmetic owes: its laws, and that every meaning is some value's.
    ghost lawful: { T EXACT → Exact ops };

    ghost onto: { T EXACT → (m : Meaning) → ((x : Self) × (mean x ≡ m)) };
}

// Whether a value may be divided by: all but zero may. Every place that refuses a divisor asks this.
pub fn may_divide<N: Arithmetic>(x: N) -> bool
    ensures { result ≡ may_divide N.ops (N.mean x) }
{
    !x.is_zero()
}
