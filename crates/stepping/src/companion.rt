// The companion models of one time step: current = conductance × voltage + feed.
ghost use Rattle.std.specs.Prelude.{◌≡◌, ◌+◌, ◌<◌, map, if◌then◌else◌, Some, slice_set};
ghost use Rattle.sheet.specs.Meanings.{meant_row};
ghost use Rattle.stepping.specs.Steps.{is_feeding, companion_turn};
ghost use Rattle.stories.specs.Assembly.{through};
ghost use Rattle.stories.specs.Companions.{conductance, feed};
ghost use Rattle.stories.specs.Steps.{row_at};

use crate::framed::Framed;
use arithmetic::Arithmetic;
use linear::put;
use networks::members_of;
use sheet::{Kind, Plan, Row};

#[derive(Clone, Copy)]
pub(crate) struct Companion<N> {
    conductance: N,
    feed: N,
}

// The rule: a resistor, an inductor and a capacitor by their rows before the step and its length h. A current
// source feeds its value; a voltage source has no companion.
fn backward_euler<N: Arithmetic>(kind: Kind, row: Row<N>, h: N) -> Companion<N>
    ensures conductance { N.mean result.conductance ≡ conductance N.ops (N.mean h) (Some kind) (meant_row N.mean row) }
    ensures feed { N.mean result.feed ≡ feed N.ops (N.mean h) (Some kind) (meant_row N.mean row) }
{
    match kind {
        Kind::Resistor => Companion {
            conductance: N::one().quotient(row.value),
            feed: N::zero(),
        },
        Kind::Inductor => Companion {
            conductance: h.quotient(row.value),
            feed: row.current,
        },
        Kind::Capacitor => {
            let conductance = row.value.quotient(h);
            Companion {
                conductance,
                feed: conductance.product(row.voltage).negative(),
            }
        }
        Kind::VoltageSource => Companion {
            conductance: N::zero(),
            feed: N::zero(),
        },
        Kind::CurrentSource => Companion {
            conductance: N::zero(),
            feed: row.value,
        },
    }
}

// The companion of the branch k into the area, conductance at k and feed at 32 + k; a voltage source has none. That k is
// below 32 is asked here, since a type for it would be made by the loop for this call and the one below it.
fn store_companion<N: Arithmetic>(plan: &Plan, rows: &[Row<N>; 32], h: N, area: &mut [N], k: u32)
    requires place { k < 32 }
    ensures { map N.mean area.new ≡ companion_turn N.ops plan.now (N.mean h) (row_at N.ops (map (meant_row N.mean) rows.now)) k (map N.mean area.old) }
{
    match plan.at(k) {
        Some(branch) => store(branch.kind, rows[k as usize], h, area, k as usize),
        None => {}
    }
}

fn store<N: Arithmetic>(kind: Kind, row: Row<N>, h: N, area: &mut [N], k: usize)
    requires { k < 32 }
    ensures { map N.mean area.new ≡ (if is_feeding (Some kind) then slice_set (slice_set (map N.mean area.old) k (conductance N.ops (N.mean h) (Some kind) (meant_row N.mean row))) (32 + k) (feed N.ops (N.mean h) (Some kind) (meant_row N.mean row)) else map N.mean area.old) }
{
    match kind {
        Kind::VoltageSource => {}
        Kind::Resistor | Kind::Inductor | Kind::Capacitor | Kind::CurrentSource => {
            let companion = backward_euler(kind, row, h);
            put(area, k, companion.conductance);
            put(area, 32 + k, companion.feed);
        }
    }
}

// The companions of all branches.
pub(crate) fn store_companions<N: Arithmetic>(
    framed: &Framed,
    rows: &[Row<N>; 32],
    h: N,
    area: &mut [N],
)
    ensures { map N.mean area.new ≡ through (companion_turn N.ops framed.now.plan.now (N.mean h) (row_at N.ops (map (meant_row N.mean) rows.now))) 32 (map N.mean area.old) }
{
    for k in members_of(framed.frame.feeding) {
        store_companion(framed.plan, rows, h, area, k);
    }
}
