// The calls of a post. Each is total: it takes any bytes and any slices, and its statement fixes its answer for all of them.
#![tactic(auto)]

mod faces;
mod judging;
mod timing;
mod word_faces;

ghost use Rattle.std.specs.Prelude.{◌≡◌};
ghost use Rattle.rules.specs.Plan.{version1};
ghost use Rattle.rules.specs.Calls.{Checked};
ghost use Rattle.rules.specs.Rows.{has_row, RowHanded};
ghost use Rattle.plan.specs.Layout.{plan_of};
ghost use Rattle.plan.specs.File.{file_answer};

pub use adding::add;
use closed::closed;
pub use faces::{
    post_add, post_check, post_earliest, post_judge, post_reasons, post_rests, post_sound,
    post_write,
};
pub use judging::judge;
use judging::lent;
pub use plan::sound;
pub use rules::Side;
use rules::{Answer, Refusal};
pub use timing::earliest;
pub use word_faces::{post_both, post_bounded, post_reach, post_reach_add};
pub use writing::write;

// Check: whether two tables are closed for a plan file. It writes nothing.
pub fn check(file: &[u8], strict: &[i32], open: &[i32]) -> Answer
    ensures { Checked version1 (file_answer file.now) (plan_of file.now) strict.now «open».now result }
{
    let plan = lent(file, strict.len(), open.len())?;
    if !closed(plan, strict, open) {
        return Err(Refusal::NotClosed);
    }
    Ok(())
}

// Whether there is a row x in two tables of so many cells.
fn has_row(strict: usize, open: usize, n: usize, x: usize) -> bool
    ensures { result ≡ has_row strict «open» n x }
{
    if 64 < n {
        return false;
    }
    let cells = n * n;
    (1 <= n) & (x < n) & (cells <= strict) & (cells <= open)
}

// Row access: row x of the chosen table, where it lies, or an empty part.
pub fn row<'a>(strict: &'a [i32], open: &'a [i32], n: usize, x: usize, which: Side) -> &'a [i32]
    ensures { RowHanded strict.entry «open».entry n x which result }
{
    if !has_row(strict.len(), open.len(), n, x) {
        return &strict[..0];
    }
    let from = x * n;
    let to = from + n;
    match which {
        Side::Strict => &strict[from..to],
        Side::Open => &open[from..to],
    }
}
