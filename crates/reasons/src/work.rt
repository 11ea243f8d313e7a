// The lent work room.
ghost use Rattle.std.specs.Prelude.{◌≡◌, ◌*◌, ◌≤◌, length};

use offers::Bests;
use reader::SoundPlan;

// The work room of a plan. That there is room for its four tables is part of the type.
#[derive(Drop)]
pub struct Work<'a> {
    pub plan: SoundPlan<'a>,
    pub cells: &'a mut [i64],
    ghost room: { 4 * (plan.n * plan.n) ≤ length cells.now },
}

impl Work<'_> {
    // The same to be read.
    pub fn bests(&self) -> Bests<'_>
        ensures { (result.n ≡ self.now.plan.n) × (result.cells.now ≡ self.now.cells.now) }
    {
        Bests {
            n: self.plan.n,
            cells: self.cells,
        }
    }
}
