// The type of a table's cells, at any width: its ranges, what each of its numbers says, and the arithmetic of cells.
ghost use Rattle.std.specs.Prelude.{◌≡◌, ℤ, ◌+◌, ◌≤◌, ◌<◌, List, ℕ, length, get_or, set, pos, negsuc, neg_ℤ, ◌+ℤ◌, ◌-ℤ◌, ◌≤ℤ◌, refl};
ghost use Rattle.std.specs.Int.Signed.{lt_z};
ghost use Rattle.std.specs.Int.{w32, w64, Width};
ghost use Rattle.std.proofs.Common.{SFits};
ghost use Rattle.std.proofs.lemmas.List.{get_or_default};
ghost use Rattle.whole.specs.Signed.{larger};
ghost use Rattle.rules.specs.Plan.{Ranges, Link, version1};
ghost use Rattle.rules.specs.Edges.{spread as spread_of};
ghost use Rattle.rules.specs.Cells.{◌+ᶜ◌, lowered, uppered, Within, cell_of};
ghost use Rattle.rules.proofs.Coherence.{Coherent};
ghost use Rattle.rules.proofs.Demands.{version1_coherent};
ghost use Rattle.cell.specs.Steps.{adding, roomy, is_mark, belowᶜ, smallerᶜ, Stored, Summed, clamped, height, Decides};
ghost use Rattle.cell.specs.Widths.{Room, farther, room32, room64, room_roomy, Numbers, numbers32, numbers64, version1_far, adding_far, version1_weights, adding_weights, adding_coherent, Summable, version1_summable, adding_summable};

pub trait Word: Copy {
    // The ranges that a table keeps to, and how many bits a cell has.
    ghost ranges: { Ranges };

    ghost width: { Width };

    // How far from zero a cell may lie to be added to.
    ghost far: { ℕ };

    // A cell as a number, and the cells of a list as numbers.
    ghost value: { Self → ℤ };

    ghost values: { List Self → List ℤ };

    // No path, and how high it stands above the floor.
    ghost MARK: { Self };

    const MARK: Self;

    ghost PEAK: { ℕ };

    const PEAK: u64;

    // The ends of the reach, and the floor, which is one under it.
    ghost MOST: { Self };

    const MOST: Self;

    ghost LEAST: { Self };

    const LEAST: Self;

    ghost FLOOR: { Self };

    const FLOOR: Self;

    // The number n: a span of a link, or the spread of one.
    fn of(n: u32) -> Self
        requires { n ≤ ranges.weight }
        ensures { value result ≡ pos n };

    // The number n: the weight of a limit.
    fn number(n: i32) -> Self
        ensures { value result ≡ n };

    // The arithmetic of numbers, on the numbers themselves.
    fn less(self, o: Self) -> bool
        ensures { result ≡ lt_z (value self) (value o) };

    fn plus(self, o: Self) -> Self
        requires { SFits width (value self +ℤ value o) }
        ensures { value result ≡ value self +ℤ value o };

    fn minus(self, o: Self) -> Self
        requires { SFits width (value self -ℤ value o) }
        ensures { value result ≡ value self -ℤ value o };

    fn negated(self) -> Self
        requires { SFits width (neg_ℤ (value self)) }
        ensures { value result ≡ neg_ℤ (value self) };

    // A number that is not below 0, without a sign.
    fn up(self) -> u64
        requires { pos 0 ≤ℤ value self }
        ensures { pos result ≡ value self };

    // Whether there is no path.
    fn is_mark(self) -> bool
        ensures { result ≡ is_mark (cell_of ranges.mark (value self)) };

    // Whether this cell is below the other one, with the mark above every number.
    fn below(self, o: Self) -> bool
        ensures { result ≡ belowᶜ (cell_of ranges.mark (value self)) (cell_of ranges.mark (value o)) };

    // What the constants are, and what is asked of the ranges.
    ghost numbers: { Numbers ranges (value MARK) (value MOST) (value LEAST) (value FLOOR) PEAK };

    ghost room: { Room width ranges };

    ghost far_room: { Room width (farther ranges far) };

    ghost reach_far: { ranges.reach ≤ far };

    // The weights of a plan file are among those of the ranges.
    ghost weights: { version1.weight ≤ ranges.weight };

    ghost coherent: { Coherent ranges };

    ghost summable: { Summable ranges };

    // The numbers of a list are those of its cells.
    ghost get_law: { (xs : List Self) (i : ℕ) (d : Self) (e : ℤ) → i < length xs → value (get_or xs i d) ≡ get_or (values xs) i e };

    ghost set_law: { (xs : List Self) (i : ℕ) (v : Self) → values (set xs i v) ≡ set (values xs) i (value v) };

    ghost length_law: { (xs : List Self) → length (values xs) ≡ length xs };

    // The larger of two numbers.
    final fn larger(self, o: Self) -> Self
        ensures { value result ≡ larger (value self) (value o) }
    {
        if self.less(o) {
            return o;
        }
        self
    }

    // The smaller of two cells.
    final fn smaller(self, o: Self) -> Self
        ensures { cell_of ranges.mark (value result) ≡ smallerᶜ (cell_of ranges.mark (value self)) (cell_of ranges.mark (value o)) }
    {
        if self.below(o) {
            return self;
        }
        o
    }

    // Whether the cell is the mark, or a number from the least to the most.
    final fn between(self, least: Self, most: Self) -> bool
        ensures { (n : ℕ) → value least ≡ neg_ℤ (pos n) → value most ≡ pos n → Decides result (Within n (cell_of ranges.mark (value self))) }
    {
        if self.is_mark() {
            return true;
        }
        if most.less(self) {
            return false;
        }
        if self.less(least) {
            return false;
        }
        true
    }

    // Whether closed tables of these ranges may hold this cell.
    final fn in_reach(self) -> bool
        ensures { Decides result (Within ranges.reach (cell_of ranges.mark (value self))) }
    {
        self.between(Self::LEAST, Self::MOST)
    }

    // Join: the sum of the cells P to Q and Q to R, exact.
    final fn add(self, o: Self) -> Self
        requires { Stored far (cell_of ranges.mark (value self)) × Stored far (cell_of ranges.mark (value o)) }
        ensures { cell_of ranges.mark (value result) ≡ cell_of ranges.mark (value self) +ᶜ cell_of ranges.mark (value o) }
    {
        self.onward(o)
    }

    // Join where the first cell may be such a sum already: a way of two cells, and the cell from there. The mark is never added as a number.
    final fn onward(self, o: Self) -> Self
        requires { Summed far (cell_of ranges.mark (value self)) × Stored far (cell_of ranges.mark (value o)) }
        ensures { cell_of ranges.mark (value result) ≡ cell_of ranges.mark (value self) +ᶜ cell_of ranges.mark (value o) }
    {
        if self.is_mark() {
            return self;
        }
        if o.is_mark() {
            return o;
        }
        self.plus(o)
    }

    // Lower, from the cell C to R: the shortest span of C's link and the spread of R's.
    final fn lower(self, short: u32, spread: u32) -> Self
        requires { Stored far (cell_of ranges.mark (value self)) × (short ≤ ranges.weight) × (spread ≤ ranges.weight) }
        ensures { (k j : Link) → k.short ≡ short → spread_of j ≡ pos spread → cell_of ranges.mark (value result) ≡ lowered k j (cell_of ranges.mark (value self)) }
    {
        if self.is_mark() {
            return self;
        }
        if self.less(Self::of(spread)) {
            return Self::of(short).plus(self);
        }
        Self::MARK
    }

    // Upper, from the cell P to C: the spans of C's link. The larger of v - u and -l.
    final fn upper(self, short: u32, long: u32) -> Self
        requires { Stored far (cell_of ranges.mark (value self)) × (short ≤ ranges.weight) × (long ≤ ranges.weight) }
        ensures { (k : Link) → k.short ≡ short → k.long ≡ long → cell_of ranges.mark (value result) ≡ uppered k (cell_of ranges.mark (value self)) }
    {
        if self.is_mark() {
            return self;
        }
        let after = self.minus(Self::of(long));
        let least = Self::of(short).negated();
        after.larger(least)
    }

    // As a sweep stores it: above the reach no path, below it the floor.
    final fn kept(self) -> Self
        ensures { cell_of ranges.mark (value result) ≡ clamped ranges.reach (cell_of ranges.mark (value self)) }
    {
        if Self::MOST.less(self) {
            return Self::MARK;
        }
        if self.less(Self::LEAST) {
            return Self::FLOOR;
        }
        self
    }

    // How far the cell stands above the floor.
    final fn height(self) -> u64
        requires { Stored ranges.reach (cell_of ranges.mark (value self)) }
        ensures { result ≡ height ranges.reach (cell_of ranges.mark (value self)) }
    {
        if self.is_mark() {
            return Self::PEAK;
        }
        self.plus(Self::FLOOR.negated()).up()
    }
}

// A cell of the paper's tables.
impl Word for i32 {
    ghost ranges = { version1 };

    ghost width = { w32 };

    ghost far = { version1.reach };

    ghost value = { λ v. v };

    ghost values = { λ t. t };

    ghost MARK = { pos 2147483647 };

    const MARK: i32 = 2147483647;

    ghost PEAK = { 126000002 };

    const PEAK: u64 = 126000002;

    ghost MOST = { pos 63000000 };

    const MOST: i32 = 63000000;

    ghost LEAST = { neg_ℤ (pos 63000000) };

    const LEAST: i32 = -63000000;

    ghost FLOOR = { negsuc 63000000 };

    const FLOOR: i32 = -63000001;

    fn of(n: u32) -> i32 {
        n as i32
    }

    fn number(n: i32) -> i32 {
        n
    }

    fn less(self, o: i32) -> bool {
        self < o
    }

    fn plus(self, o: i32) -> i32 {
        self + o
    }

    fn minus(self, o: i32) -> i32 {
        self - o
    }

    fn negated(self) -> i32 {
        -self
    }

    fn up(self) -> u64 {
        self as u64
    }

    fn is_mark(self) -> bool {
        self == i32::MARK
    }

    fn below(self, o: i32) -> bool {
        self < o
    }

    ghost numbers = { numbers32 };

    ghost room = { room32 };

    ghost far_room = { room32 };

    ghost reach_far = { version1_far };

    ghost weights = { version1_weights };

    ghost coherent = { version1_coherent };

    ghost summable = { version1_summable };

    ghost get_law = { λ xs i d e h. get_or_default xs i d e h };

    ghost set_law = { λ xs i v. refl };

    ghost length_law = { λ xs. refl };
}

// A cell of the tables that Add works in.
impl Word for i64 {
    ghost ranges = { adding };

    ghost width = { w64 };

    ghost far = { roomy.reach };

    ghost value = { λ v. v };

    ghost values = { λ t. t };

    ghost MARK = { pos 9223372036854775807 };

    const MARK: i64 = 9223372036854775807;

    ghost PEAK = { 7938000002 };

    const PEAK: u64 = 7938000002;

    ghost MOST = { pos 3969000000 };

    const MOST: i64 = 3969000000;

    ghost LEAST = { neg_ℤ (pos 3969000000) };

    const LEAST: i64 = -3969000000;

    ghost FLOOR = { negsuc 3969000000 };

    const FLOOR: i64 = -3969000001;

    fn of(n: u32) -> i64 {
        n as i64
    }

    fn number(n: i32) -> i64 {
        n as i64
    }

    fn less(self, o: i64) -> bool {
        self < o
    }

    fn plus(self, o: i64) -> i64 {
        self + o
    }

    fn minus(self, o: i64) -> i64 {
        self - o
    }

    fn negated(self) -> i64 {
        -self
    }

    fn up(self) -> u64 {
        self as u64
    }

    fn is_mark(self) -> bool {
        self == i64::MARK
    }

    fn below(self, o: i64) -> bool {
        self < o
    }

    ghost numbers = { numbers64 };

    ghost room = { room64 };

    ghost far_room = { room_roomy };

    ghost reach_far = { adding_far };

    ghost weights = { adding_weights };

    ghost coherent = { adding_coherent };

    ghost summable = { adding_summable };

    ghost get_law = { λ xs i d e h. get_or_default xs i d e h };

    ghost set_law = { λ xs i v. refl };

    ghost length_law = { λ xs. refl };
}
