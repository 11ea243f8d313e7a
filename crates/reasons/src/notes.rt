// A line noted in the work room, as the best of its pair where it beats it.
ghost use Rattle.std.specs.Prelude.{◌≡◌, ◌≤◌, ◌<◌};
ghost use Rattle.cell.specs.Steps.{roomy};
ghost use Rattle.offers.specs.Work.{part_of};
ghost use Rattle.offers.specs.Drafts.{made_of};
ghost use Rattle.reasons.specs.Notes.{note_pair, note_strict, note_line};
ghost use Rattle.reasons.specs.Lent.{SameWork};

use crate::work::Work;
use cell::{Word, of_line};
use offers::{Draft, spot, weights_of};
use rules::Side;

impl Work<'_> {
    // The best of the line's pair in the table of a side, and the number of the line in the next one, where the weight is below it.
    fn note_pair(&mut self, side: Side, d: Draft, line: u64)
        requires { (d.from < self.old.plan.n) × (d.to < self.old.plan.n) × (line ≤ roomy.reach) }
        ensures same { SameWork self.old self.new }
        ensures cells { self.new.cells.now ≡ note_pair self.old.plan.n (part_of side) (made_of d) line self.old.cells.now }
    {
        let old = self.bests().weight(side, d.from, d.to);
        let weight = d.weight;
        if !weight.below(old) {
            return;
        }
        let at = spot(self.plan.n, weights_of(side), d.from, d.to);
        let after = spot(self.plan.n, weights_of(side) + 1, d.from, d.to);
        self.cells[at] = weight;
        self.cells[after] = of_line(line);
    }

    // In the strict table, unless the line is a lower-case edge or an open join.
    fn note_strict(&mut self, d: Draft, line: u64)
        requires { (d.from < self.old.plan.n) × (d.to < self.old.plan.n) × (line ≤ roomy.reach) }
        ensures same { SameWork self.old self.new }
        ensures cells { self.new.cells.now ≡ note_strict self.old.plan.n (made_of d) line self.old.cells.now }
    {
        if d.kind.is_strict() {
            self.note_pair(Side::Strict, d, line);
        }
    }

    // In both tables.
    pub fn note_line(&mut self, d: Draft, line: u64)
        requires { (d.from < self.old.plan.n) × (d.to < self.old.plan.n) × (line ≤ roomy.reach) }
        ensures same { SameWork self.old self.new }
        ensures cells { self.new.cells.now ≡ note_line self.old.plan.n (made_of d) line self.old.cells.now }
    {
        self.note_strict(d, line);
        self.note_pair(Side::Open, d, line);
    }
}
