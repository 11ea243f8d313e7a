// Add: one more limit on two tables of a plan file. It is total: it takes any bytes, any limit and any slices.
#![tactic(auto)]

ghost use Rattle.rules.specs.Plan.{version1};
ghost use Rattle.rules.specs.Cells.{table_of};
ghost use Rattle.rules.specs.Tables.{Closed};
ghost use Rattle.rules.specs.Calls.{Added};
ghost use Rattle.plan.specs.Layout.{plan_of};
ghost use Rattle.plan.specs.File.{add_answer};
ghost use Rattle.plan.specs.Values.{limit_of};
ghost use Rattle.adding.specs.Lent.{Lent};

use closed::closed;
use plan::{Limit, sound_with};
use reader::{SoundPlan, known};
use rules::{Answer, Refusal};
use scratch::{all_in_reach, begin, clear, finish, settle};

// For closed tables: the sweeps in the scratch, and the tables written where their result is in reach.
fn sweeps(
    plan: SoundPlan,
    l: Limit,
    strict: &mut [i32],
    open: &mut [i32],
    cells: &mut [i64],
) -> Answer
    requires { Lent plan.file.now plan.n (limit_of l) strict.old «open».old cells.old × Closed version1 (plan_of plan.file.now) (table_of version1 plan.n strict.old) (table_of version1 plan.n «open».old) }
    ensures { Added version1 (add_answer plan.entry.file.now (limit_of l)) (plan_of plan.entry.file.now) (limit_of l) strict.old «open».old cells.old result strict.new «open».new cells.new }
{
    let n = plan.n;
    let room = n * n + n * n;
    begin(strict, cells, n, l);
    if !settle(plan, cells) {
        clear(cells, room); // a refusal leaves no trace
        return Err(Refusal::NotControllable);
    }
    if !all_in_reach(cells, room) {
        clear(cells, room);
        return Err(Refusal::NotClosed);
    }
    finish(cells, strict, open, n);
    Ok(())
}

// With room for all: whether the tables are closed, and the sweeps.
fn add_to(
    plan: SoundPlan,
    l: Limit,
    strict: &mut [i32],
    open: &mut [i32],
    cells: &mut [i64],
) -> Answer
    requires { Lent plan.file.now plan.n (limit_of l) strict.old «open».old cells.old }
    ensures { Added version1 (add_answer plan.entry.file.now (limit_of l)) (plan_of plan.entry.file.now) (limit_of l) strict.old «open».old cells.old result strict.new «open».new cells.new }
{
    if !closed(plan, strict, open) {
        clear(cells, plan.n * plan.n + plan.n * plan.n);
        return Err(Refusal::NotClosed);
    }
    sweeps(plan, l, strict, open, cells)
}

// Add: the limit from x to y of weight w, put on two tables of a plan file.
pub fn add(
    file: &[u8],
    x: u32,
    y: u32,
    w: i32,
    strict: &mut [i32],
    open: &mut [i32],
    cells: &mut [i64],
) -> Answer
    ensures { Added version1 (add_answer file.now (record { from = x; to = y; weight = w })) (plan_of file.now) (record { from = x; to = y; weight = w }) strict.old «open».old cells.old result strict.new «open».new cells.new }
{
    sound_with(file, x, y, w)?;
    let plan = known(file);
    let room = plan.n * plan.n;
    if strict.len() < room || open.len() < room || cells.len() < room + room {
        return Err(Refusal::ShortRoom);
    }
    let l = Limit {
        from: x,
        to: y,
        weight: w,
    };
    add_to(plan, l, strict, open, cells)
}
