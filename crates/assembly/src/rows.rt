// Operations on rows of signs.
ghost use Rattle.std.specs.Prelude.{◌≡◌, ℕ};
ghost use Rattle.graphs.specs.Cuts.{turned};
ghost use Rattle.stories.specs.Assembly.{agree};
ghost use Rattle.topology.specs.Matrices.{entry};

use networks::{common, either, less};
use sheet::Shown;

// Plus where both rows have equal signs, minus where they have opposite ones.
pub(crate) fn agreement(a: Shown, b: Shown) -> Shown
    ensures { (k : ℕ) → entry result k ≡ agree (entry a k) (entry b k) }
{
    let members = common(either(a.members, a.against), either(b.members, b.against));
    let opposite = either(less(a.against, b.against), less(b.against, a.against));
    Shown {
        members,
        against: common(members, opposite),
    }
}

// Every sign turned.
pub(crate) fn turn_row(row: Shown) -> Shown
    ensures { (k : ℕ) → entry result k ≡ turned (entry row k) }
{
    let members = either(row.members, row.against);
    Shown {
        members,
        against: less(members, row.against),
    }
}
