// The work room as the working-out begins, with no line: no weight but 0 for a point to itself; and cleared at its end.
ghost use Rattle.std.specs.Prelude.{[], ◌+◌, ◌*◌, ◌<◌, pos};
ghost use Rattle.rules.specs.Calls.{Kept, Filled};
ghost use Rattle.offers.specs.Work.{Holds};
ghost use Rattle.reasons.specs.Starting.{Between, Diagonal};
ghost use Rattle.reasons.specs.Lent.{SameWork};

use crate::work::Work;
use cell::Word;
use offers::spot;

impl Work<'_> {
    // The four tables all 0.
    pub fn clear(&mut self)
        ensures same { SameWork self.old self.new }
        ensures cells { Filled (4 * (self.old.plan.n * self.old.plan.n)) (pos 0) self.old.cells.now self.new.cells.now }
    {
        let n = self.plan.n;
        self.cells[..4 * (n * n)].fill(0);
    }

    // One of them all one number.
    fn fill(&mut self, table: usize, c: i64)
        requires { table < 4 }
        ensures same { SameWork self.old self.new }
        ensures cells { Between (table * (self.old.plan.n * self.old.plan.n)) ((table + 1) * (self.old.plan.n * self.old.plan.n)) c self.old.cells.now self.new.cells.now }
    {
        let n = self.plan.n;
        self.cells[table * (n * n)..(table + 1) * (n * n)].fill(c);
    }

    // Each point to itself 0, in one of them.
    fn diagonal(&mut self, table: usize)
        requires { table < 4 }
        ensures same { SameWork self.old self.new }
        ensures cells { Diagonal self.old.plan.n table self.old.plan.n self.old.cells.now self.new.cells.now }
    {
        for x in 0..self.plan.n as u32 {
            let at = spot(self.plan.n, table, x, x);
            self.cells[at] = 0;
        }
    }

    // With no line: no weight, but 0 for a point to itself, and 0 for the number of every line.
    pub fn begin(&mut self)
        ensures same { SameWork self.old self.new }
        ensures holds { Holds self.old.plan.n [] self.new.cells.now }
        ensures kept { Kept (4 * (self.old.plan.n * self.old.plan.n)) self.old.cells.now self.new.cells.now }
    {
        self.clear();
        let none = i64::MARK;
        self.fill(0, none);
        self.fill(2, none);
        self.diagonal(0);
        self.diagonal(2);
    }
}
