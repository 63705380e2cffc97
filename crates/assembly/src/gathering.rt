// Sums of signed terms, lower numbers first.
ghost use Rattle.std.specs.Prelude.{◌≡◌, ℕ, ◌<◌};
ghost use Rattle.assembly.specs.Frames.{gathered};
ghost use Rattle.graphs.specs.Graph.{Set, ◌∈◌};
ghost use Rattle.stories.specs.Assembly.{taken};
ghost use Rattle.topology.specs.Matrices.{entry};
ghost use Rattle.topology.specs.Rows.{sign_of};
ghost use Rattle.networks.specs.Words.{bits};

use arithmetic::Arithmetic;
use networks::{common, either, members_of};
use sheet::Shown;
use topology::{Sign, sign_at};

// The sum with a term added at plus and subtracted at minus.
pub(crate) fn take<N: Arithmetic>(sign: Sign, term: N, sum: N) -> N
    ensures { N.mean result ≡ taken N.ops (sign_of sign) (N.mean term) (N.mean sum) }
{
    match sign {
        Sign::Plus => sum.sum(term),
        Sign::Zero => sum,
        Sign::Minus => sum.difference(term),
    }
}

// The terms of the members of a word, each taken by its sign, to a start.
pub(crate) fn gather<N: Arithmetic, S: Fn(u32) -> Sign, T: Fn(u32) -> N>(
    members: u32,
    sign: S,
    term: T,
    start: N,
) -> N
    requires signs { (k : ℕ) → k < 32 → S.pre sign k }
    requires terms { (k : ℕ) → k < 32 → T.pre term k }
    ensures { (R : Set) (s : ℕ → _) (x : ℕ → N.Meaning) →
        bits members ≡ R →
        ((k : ℕ) (r : _) → k < 32 → k ∈ R → S.post sign k r → sign_of r ≡ s k) →
        ((k : ℕ) (y : N) → k < 32 → k ∈ R → T.post term k y → N.mean y ≡ x k) →
        N.mean result ≡ gathered N.ops R s x (N.mean start) }
{
    let mut sum = start;
    for k in members_of(members) {
        sum = take(sign(k), term(k), sum);
    }
    sum
}

// The same by the signs of a row. Where the row has no sign nothing is taken, so these places are left out.
pub(crate) fn gather_row<N: Arithmetic, T: Fn(u32) -> N>(
    members: u32,
    row: Shown,
    term: T,
    start: N,
) -> N
    requires { (k : ℕ) → k < 32 → T.pre term k }
    ensures { (R : Set) (s : ℕ → _) (x : ℕ → N.Meaning) →
        bits members ≡ R →
        ((k : ℕ) → k < 32 → k ∈ R → entry row k ≡ s k) →
        ((k : ℕ) (y : N) → k < 32 → k ∈ R → T.post term k y → N.mean y ≡ x k) →
        N.mean result ≡ gathered N.ops R s x (N.mean start) }
{
    let signed = common(members, either(row.members, row.against));
    gather(signed, |k| sign_at(row, k), term, start)
}
