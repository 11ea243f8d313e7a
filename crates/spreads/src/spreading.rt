// One edge through a table that is joined already.
ghost use Rattle.std.specs.Prelude.{◌<◌};
ghost use Rattle.rules.specs.Plan.{version1};
ghost use Rattle.cell.specs.Steps.{cell32, Stored};
ghost use Rattle.lowering.specs.Spread.{spread_row, spread_all, take_edge, new_edge};
ghost use Rattle.joining.specs.Takes.{Takes};

use cell::Word;
use joining::Table;

// Row x by an edge from a to b of w, if that shortens the way from x to b.
fn spread_row(t: &mut Table<'_, i32>, a: usize, b: usize, w: i32, x: usize)
    requires { (x < t.old.n) × (a < t.old.n) × (b < t.old.n) × Stored version1.reach (cell32 w) }
    ensures { Takes (spread_row version1 t.old.n a b (cell32 w) x) t.old t.new }
{
    let way = t.get(x, a).add(w);
    if way.below(t.get(x, b)) {
        t.row_by(b, x, way);
    }
}

// Every row. The row of b is apart, as the middle's is in the joins.
fn spread_all(t: &mut Table<'_, i32>, a: usize, b: usize, w: i32)
    requires { (a < t.old.n) × (b < t.old.n) × Stored version1.reach (cell32 w) }
    ensures { Takes (spread_all version1 t.old.n a b (cell32 w)) t.old t.new }
{
    'above: for x in 0..b {
        spread_row(t, a, b, w, x);
    }
    spread_row(t, a, b, w, b);
    'below: for x in b + 1..t.n {
        spread_row(t, a, b, w, x);
    }
}

// An edge from a to b of w: one that closes a walk below 0 is written to the diagonal, where that is looked for; any other is spread.
fn take_edge(t: &mut Table<'_, i32>, a: usize, b: usize, w: i32)
    requires { (a < t.old.n) × (b < t.old.n) × Stored version1.reach (cell32 w) }
    ensures { Takes (take_edge version1 t.old.n a b (cell32 w)) t.old t.new }
{
    let around = w.add(t.get(b, a));
    if around.below(i32::of(0)) {
        t.lower_cell(a, a, around);
    } else {
        spread_all(t, a, b, w);
    }
}

// An edge from a to b of c, taken if it lowers the cell.
pub fn new_edge(t: &mut Table<'_, i32>, a: usize, b: usize, c: i32)
    requires { (a < t.old.n) × (b < t.old.n) }
    ensures { Takes (new_edge version1 t.old.n a b (cell32 c)) t.old t.new }
{
    let w = c.kept();
    if w.below(t.get(a, b)) {
        take_edge(t, a, b, w);
    }
}
