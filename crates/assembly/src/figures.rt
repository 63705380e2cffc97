// Currents and voltages from the solved system. Each contract asks for what it reads and no more of frame, area and rows,
// and for a place below 32 where figures of all places are read, which are known up to there. Figures stand in arrays of
// 32, the places of a plan, since a step asks for no memory.
ghost use Rattle.std.specs.Prelude.{◌≡◌, ℕ, ◌<◌, true, map, length, slice_index_or};
ghost use Rattle.assembly.specs.Figures.{all, in_use, at_members, voltage_at, current_at, found, linked, Filled};
ghost use Rattle.assembly.specs.Frames.{Frames, Holds, Levels, levels_of};
ghost use Rattle.graphs.specs.Graph.{◌∈◌};
ghost use Rattle.stories.specs.Assembly.{Parts};
ghost use Rattle.stories.specs.Steps.{tree_voltage, voltage_of, flow_of, current_of};

use crate::frame::Frame;
use crate::gathering::{gather_row, take};
use crate::rows::turn_row;
use crate::setting::Setting;
use crate::system::place_among;
use crate::values::values_at;
use arithmetic::Arithmetic;
use linear::{get, place, put};
use networks::{common, either, has, less, members_of};
use topology::sign_at;

impl<'a, N: Arithmetic> Setting<'a, N> {
    // The voltage of a tree branch: a voltage source's own, another's from the right side of its row.
    fn tree_voltage(&self, unknowns: u32, t: u32) -> N
        requires { t < 32 }
        ensures { (c : Parts N.Meaning) → Frames c self.now.frame.now → Levels c (levels_of N.ops N.mean self.now.rows.now) → N.mean result ≡ tree_voltage c (found N.ops (map N.mean self.now.area.now) unknowns) t }
    {
        if has(self.frame.fixed, t) {
            return self.level(t);
        }
        let row = place_among(self.frame.unknown, t);
        get(self.area, place(row, unknowns))
    }

    // The voltages of the tree branches by place; zero at every other place.
    fn tree_voltages(&self, unknowns: u32) -> [N; 32]
        ensures { (c : Parts N.Meaning) → Frames c self.now.frame.now → Levels c (levels_of N.ops N.mean self.now.rows.now) → Filled N.ops all (at_members N.ops c.tree (tree_voltage c (found N.ops (map N.mean self.now.area.now) unknowns))) 32 (map N.mean result) }
    {
        values_at(self.frame.tree, |t| self.tree_voltage(unknowns, t))
    }

    // The current of a branch that is no voltage source: conductance × voltage + feed, or the feed alone.
    fn flow_of(&self, voltages: &[N], k: u32) -> N
        requires { k < 32 }
        ensures { (c : Parts N.Meaning) (x : ℕ → N.Meaning) → Frames c self.now.frame.now → Holds N.ops c (map N.mean self.now.area.now) → Filled N.ops (in_use c) (voltage_of N.ops c x) 32 (map N.mean voltages.now) → c.feeding k ≡ true → N.mean result ≡ flow_of N.ops c x k }
    {
        let at = k as usize;
        let feed = get(self.area, 32 + at);
        if has(self.frame.passive, k) {
            get(self.area, at).product(get(voltages, at)).sum(feed)
        } else {
            feed
        }
    }

    fn flows_of(&self, voltages: &[N]) -> [N; 32]
        ensures { (c : Parts N.Meaning) (x : ℕ → N.Meaning) → Frames c self.now.frame.now → Holds N.ops c (map N.mean self.now.area.now) → Filled N.ops (in_use c) (voltage_of N.ops c x) 32 (map N.mean voltages.now) → Filled N.ops c.feeding (flow_of N.ops c x) 32 (map N.mean result) }
    {
        values_at(self.frame.feeding, |k| self.flow_of(voltages, k))
    }

    // The voltage of every branch, by place, from the area of the solved system of so many unknowns; zero where there is no
    // branch.
    pub fn branch_voltages(&self, unknowns: u32) -> [N; 32]
        ensures { (c : Parts N.Meaning) → Frames c self.now.frame.now → Levels c (levels_of N.ops N.mean self.now.rows.now) → Filled N.ops all (voltage_at N.ops c (found N.ops (map N.mean self.now.area.now) unknowns)) 32 (map N.mean result) }
    {
        let mut voltages = self.tree_voltages(unknowns);
        for t in members_of(self.frame.tree) {
            take_to_links(self.frame, &mut voltages, t);
        }
        voltages
    }

    // The current of every branch, by place, from its voltage; zero where there is no branch.
    pub fn branch_currents(&self, voltages: &[N]) -> [N; 32]
        ensures { (c : Parts N.Meaning) (x : ℕ → N.Meaning) → Frames c self.now.frame.now → Holds N.ops c (map N.mean self.now.area.now) → Filled N.ops (in_use c) (voltage_of N.ops c x) 32 (map N.mean voltages.now) → Filled N.ops all (current_at N.ops c x) 32 (map N.mean result) }
    {
        let flows = self.flows_of(voltages);
        currents_of(self.frame, &flows)
    }
}

// The voltage of a link is the sum of the tree's by the signs of their cuts: that of the tree branch t is taken to the links
// in its cut.
fn take_to_links<N: Arithmetic>(frame: &Frame, voltages: &mut [N; 32], t: u32)
    ensures length { length (map N.mean voltages.new) ≡ 32 }
    ensures links { (c : Parts N.Meaning) → Frames c frame.now → t ∈ c.tree → (k : ℕ) → k < 32 → slice_index_or (map N.mean voltages.new) k N.ops.nought ≡ linked N.ops c t (slice_index_or (map N.mean voltages.old) t N.ops.nought) k (slice_index_or (map N.mean voltages.old) k N.ops.nought) }
{
    let row = frame.cut(t);
    let voltage = get(voltages, t as usize);
    let links = less(frame.link, frame.tree);
    let signed = common(links, either(row.members, row.against));
    for k in members_of(signed) {
        let sum = take(sign_at(row, k), voltage, get(voltages, k as usize));
        put(voltages, k as usize, sum);
    }
}

// The current of a branch: that of a voltage source is what the links of its cut leave.
fn current_of<N: Arithmetic>(frame: &Frame, flows: &[N], k: u32) -> N
    requires { k < 32 }
    ensures { (c : Parts N.Meaning) (x : ℕ → N.Meaning) → Frames c frame.now → Filled N.ops c.feeding (flow_of N.ops c x) 32 (map N.mean flows.now) → in_use c k ≡ true → N.mean result ≡ current_of N.ops c x k }
{
    if has(frame.fixed, k) {
        let row = turn_row(frame.cut(k));
        gather_row(frame.link, row, |j| get(flows, j as usize), N::zero())
    } else {
        get(flows, k as usize)
    }
}

fn currents_of<N: Arithmetic>(frame: &Frame, flows: &[N]) -> [N; 32]
    ensures { (c : Parts N.Meaning) (x : ℕ → N.Meaning) → Frames c frame.now → Filled N.ops c.feeding (flow_of N.ops c x) 32 (map N.mean flows.now) → Filled N.ops all (current_at N.ops c x) 32 (map N.mean result) }
{
    let used = either(frame.fixed, frame.feeding);
    values_at(used, |k| current_of(frame, flows, k))
}
