// The lines on a circuit's graph: its tree, and the loop and cut rows that go with it.
ghost use Rattle.std.specs.Prelude.{◌≡◌, ℕ, ◌<◌, Option, string_bytes};
ghost use Rattle.printed_key.specs.Blocks.{network_lines, row_lines};
ghost use Rattle.printed_key.specs.Text.{Adds, text_of, listed};
ghost use Rattle.sheet.specs.declared.refusal.Shown.{Shown};
ghost use Rattle.sheet.specs.Refusals.{Answer, granted};

use crate::words::{Members, Signed, place};
use sheet::Shown;
use std::alloc::AllocError;
use stepping::Framed;

// `loop 1 -0 +1 +2` for each place that has a row: the name, the place, and the signed members.
fn push_rows<F: Fn(u32) -> Option<Shown>>(
    text: &mut String,
    name: &str,
    row_at: F,
) -> Result<(), AllocError>
    requires { F.IsAlwaysCallable row_at }
    ensures { (rows : ℕ → Answer (Option Shown)) → ((k : ℕ) (r : _) → k < 32 → F.post row_at k r → granted r ≡ rows k) → Adds result (string_bytes text.old) (string_bytes text.new) (text_of (listed (λ k. row_lines name.now k (rows k)) 32)) }
{
    for k in 0..32 {
        if let Some(row) = row_at(k) {
            writeln!(text, "{name}{}{}", place(k), Signed(row))?;
        }
    }
    Ok(())
}

// `tree 0 2`, a line for each link, and a line for each tree branch.
pub(crate) fn push_network(text: &mut String, framed: &Framed) -> Result<(), AllocError>
    ensures { Adds result (string_bytes text.old) (string_bytes text.new) (text_of (network_lines framed.now.plan.now framed.now.frame.tree)) }
{
    writeln!(text, "tree{}", Members(framed.frame.tree))?;
    let rows = framed.rows();
    push_rows(text, "loop", |k| rows.loop_in(k))?;
    push_rows(text, "cut", |k| rows.cut_in(k))
}
