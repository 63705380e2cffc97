// Values by place.
ghost use Rattle.std.specs.Prelude.{◌≡◌, ℕ, ◌<◌, map};
ghost use Rattle.assembly.specs.Figures.{all, at_members, Filled};
ghost use Rattle.graphs.specs.Graph.{Set, ◌∈◌};
ghost use Rattle.networks.specs.Words.{bits};

use arithmetic::Arithmetic;
use linear::put;
use networks::members_of;

// The values of the members of a word, each at its place; zero at every other place.
pub(crate) fn values_at<N: Arithmetic, F: Fn(u32) -> N>(members: u32, value: F) -> [N; 32]
    requires { (k : ℕ) → k < 32 → F.pre value k }
    ensures { (R : Set) (x : ℕ → N.Meaning) →
        bits members ≡ R →
        ((k : ℕ) (y : N) → k < 32 → k ∈ R → F.post value k y → N.mean y ≡ x k) →
        Filled N.ops all (at_members N.ops R x) 32 (map N.mean result) }
{
    let zero = N::zero();
    let mut values = [zero; 32];
    for k in members_of(members) {
        put(&mut values, k as usize, value(k));
    }
    values
}
