// Incidence, loop and cut matrices: a row a line, a column for each of the places 0 to 31 that holds a branch.
use networks::is_placed;
use sheet::{Plan, Refusal, Shown};
use topology::{Sign, cut_row, incidence, loop_row, sign_at, tree};

// Signs are numbers in these matrices alone, so the sign's own crate has no such conversion.
fn number(sign: Sign) -> i32 {
    match sign {
        Sign::Plus => 1,
        Sign::Zero => 0,
        Sign::Minus => -1,
    }
}

// The signs of the placed branches, to the end of the line.
fn show_signs<F: Fn(u32) -> Sign>(rt: &HostRuntime, plan: &Plan, sign: F) -> anyhow::Result<()>
    requires { F.IsAlwaysCallable sign }
{
    for k in 0..32 {
        if is_placed(plan, k) {
            let entry = number(sign(k));
            print!(rt; " {entry}")?;
        }
    }
    println!(rt; "")?;
    Ok(())
}

// A line for each number that has a row.
fn show_rows<F: Fn(u32) -> Result<Option<Shown>, Refusal>>(
    rt: &HostRuntime,
    plan: &Plan,
    name: &str,
    row_of: F,
) -> anyhow::Result<()>
    requires { F.IsAlwaysCallable row_of }
{
    for k in 0..32 {
        if let Ok(Some(row)) = row_of(k) {
            print!(rt; "{name} {k}")?;
            show_signs(rt, plan, |j| sign_at(row, j))?;
        }
    }
    Ok(())
}

pub(crate) fn show_matrices(rt: &HostRuntime, plan: &Plan) -> anyhow::Result<()> {
    for node in 0..16 {
        print!(rt; "node {node}")?;
        show_signs(rt, plan, |k| incidence(plan, node, k))?;
    }
    if let Err(refusal) = tree(plan) {
        println!(rt; "refused {refusal}")?;
        return Ok(());
    }
    show_rows(rt, plan, "loop", |k| loop_row(plan, k))?;
    show_rows(rt, plan, "cut", |k| cut_row(plan, k))
}
