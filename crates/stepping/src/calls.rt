// One time step.
ghost use Rattle.std.specs.Prelude.{◌≡◌, not, ◌&&◌, ◌||◌, T, List, map, length, replicate, ◌==◌, nat_lt};
ghost use Rattle.arithmetic.specs.Ops.{may_divide};
ghost use Rattle.sheet.specs.Meanings.{meant_row, meant_sheet};
ghost use Rattle.sheet.specs.Refusals.{granted, refuse, told, verdict};
ghost use Rattle.stepping.specs.Calls.{StepDoes, Continues};
ghost use Rattle.stepping.specs.Steps.{Worked, Settles};
ghost use Rattle.stories.specs.Stories.{StoryCall, run};
ghost use Rattle.stories.specs.Theorem.{TheoremOfStories, TreesOfStories};

use crate::area::clear;
use crate::companion::store_companions;
use crate::figures::Figures;
use crate::framed::Framed;
use arithmetic::{Arithmetic, may_divide};
use assembly::{Frame, Setting, assemble};
use sheet::{Plan, Refusal, Row};
use solver::solve;
use topology::tree;

// Companions, system and solution in the area; the number of unknowns, or none where a column has no pivot.
fn solve_system<N: Arithmetic>(
    framed: &Framed,
    rows: &[Row<N>; 32],
    h: N,
    area: &mut [N; 304],
) -> Option<u32>
    ensures { Worked N.ops (N.mean h) (record { plan = framed.now.plan.now; rows = map (meant_row N.mean) rows.now }) result (map N.mean area.new) }
{
    clear(area);
    store_companions(framed, rows, h, area);
    let unknowns = assemble(&framed.frame, area, rows);
    solve(area, unknowns as usize).ok()?;
    Some(unknowns)
}

// A row table of 32 rows and a work area of at least 304 places.
fn has_areas(rows: usize, places: usize) -> bool
    ensures { result ≡ not (not (rows == 32) || nat_lt places 304) }
{
    rows == 32 && places >= 304
}

// A step length is sound and may be divided by.
fn is_step_length<N: Arithmetic>(h: N) -> bool
    ensures { result ≡ (N.ops.is_sound (N.mean h) && may_divide N.ops (N.mean h)) }
{
    h.is_sound() & may_divide(h)
}

// What is asked before the tree: 1, 11.
fn may_step<N: Arithmetic>(rows: usize, places: usize, h: N) -> Result<(), Refusal>
    ensures { told result ≡ refuse 1 (not (rows == 32) || nat_lt places 304) (refuse 11 (not (N.ops.is_sound (N.mean h) && may_divide N.ops (N.mean h))) (granted tt)) }
{
    if !has_areas(rows, places) {
        return Err(Refusal::WrongLength);
    }
    if !is_step_length(h) {
        return Err(Refusal::BadStepLength);
    }
    Ok(())
}

// The step once its tree is known: 14, 15, or the new figures in the rows.
fn advance<N: Arithmetic>(
    framed: &Framed,
    rows: &mut [Row<N>; 32],
    h: N,
    area: &mut [N; 304],
) -> Result<(), Refusal>
    ensures { Settles N.ops N.mean (N.mean h) framed.now.plan.now rows.old (verdict result) rows.new }
{
    let unknowns = solve_system(framed, rows, h, area).ok_or(Refusal::NoPivot)?;
    let setting = Setting {
        frame: &framed.frame,
        area,
        rows,
    };
    let voltages = setting.branch_voltages(unknowns);
    let currents = setting.branch_currents(&voltages);
    let figures = Figures {
        currents: &currents,
        voltages: &voltages,
    };
    if figures.are_unsound(framed) {
        return Err(Refusal::UnsoundResult);
    }
    figures.renew_rows(framed, rows);
    Ok(())
}

// The same, and the area ends as zeros each time.
fn settle<N: Arithmetic>(
    framed: &Framed,
    rows: &mut [Row<N>; 32],
    h: N,
    area: &mut [N; 304],
) -> Result<(), Refusal>
    ensures does { Settles N.ops N.mean (N.mean h) framed.now.plan.now rows.old (verdict result) rows.new }
    ensures area { area.new ≡ replicate 304 N.nil }
{
    let answer = advance(framed, rows, h, area);
    clear(area);
    answer
}

impl Framed<'_> {
    // One time step of length h on the plan with this tree: as `step`, which would find the tree first, and a call of a
    // story as that is.
    pub fn step<N: Arithmetic>(
        &self,
        rows: &mut [Row<N>],
        h: N,
        work: &mut [N],
    ) -> Result<(), Refusal>
        ensures does { StepDoes N.ops N.mean N.nil self.now.plan.now rows.old h work.old (verdict result) rows.new work.new }
        ensures story { (cs : List (StoryCall N.Meaning)) → run N.ops cs ≡ meant_sheet N.mean (record { plan = self.now.plan.now; rows = rows.old }) → Continues N.ops N.EXACT cs (length rows.old) (length work.old) (N.mean h) (meant_sheet N.mean (record { plan = self.now.plan.now; rows = rows.old })) (verdict result) (meant_sheet N.mean (record { plan = self.now.plan.now; rows = rows.new })) }
        ensures stories { T N.EXACT → TheoremOfStories N.ops }
        ensures trees { TreesOfStories N.ops }
    {
        may_step(rows.len(), work.len(), h)?;
        // The test of both lengths comes first, since it shows that arrays so long fit in memory.
        let (Some(rows), Some(area)) = (rows.as_mut_array::<32>(), work.first_chunk_mut::<304>())
        else {
            unreachable!()
        };
        settle(self, rows, h, area)
    }
}

// One time step of length h: new currents and voltages in the rows of all placed branches. Refused by 1, 11, 12, 13,
// 14 and 15 in that order; a refused step leaves the rows. A granted step, 14 and 15 leave zeros in the first 304
// places of the work area; no other place is touched.
pub fn step<N: Arithmetic>(
    plan: &Plan,
    rows: &mut [Row<N>],
    h: N,
    work: &mut [N],
) -> Result<(), Refusal>
    ensures does { StepDoes N.ops N.mean N.nil plan.now rows.old h work.old (verdict result) rows.new work.new }
    ensures story { (cs : List (StoryCall N.Meaning)) → run N.ops cs ≡ meant_sheet N.mean (record { plan = plan.now; rows = rows.old }) → Continues N.ops N.EXACT cs (length rows.old) (length work.old) (N.mean h) (meant_sheet N.mean (record { plan = plan.now; rows = rows.old })) (verdict result) (meant_sheet N.mean (record { plan = plan.now; rows = rows.new })) }
    ensures stories { T N.EXACT → TheoremOfStories N.ops }
    ensures trees { TreesOfStories N.ops }
{
    may_step(rows.len(), work.len(), h)?;
    let tree = tree(plan)?;
    let framed = Framed {
        plan,
        frame: Frame::of(plan, tree),
    };
    framed.step(rows, h, work)
}
