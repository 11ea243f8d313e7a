// How many lines of a reason list one line rests on (document 02, item 4), of any lent lists: kinds, first and second references of the lines from line 0.
// The reason list ends with the shortest of the three. Two functions, for join lines and for rule lines, call each other; the line number falls at each call.
#![tactic(auto)]

ghost use Rattle.std.specs.Prelude.{◌≡◌, min, get_or, unwrap_or};
ghost use Rattle.rests.specs.Rests.{is_join, is_rule, rests_on, largest, kind_in, joins_in, rules_in};

const LARGEST: u32 = 1000000;

// The kinds of lines that rest on others: a reason list numbers its kinds 1 to 9.
const STRICT_JOIN: u32 = 6;

const LOWER: u32 = 7;

const UPPER: u32 = 8;

const OPEN_JOIN: u32 = 9;

// A line's reference out of a list; past the list 0.
fn reference(list: &[u32], line: u32) -> u32
    ensures { result ≡ get_or list.now line 0 }
{
    list.get(line as usize).copied().unwrap_or(0)
}

// The three lists of a reason list that say what its lines rest on.
#[derive(Clone, Copy)]
struct Lines<'a> {
    kinds: &'a [u32],
    firsts: &'a [u32],
    seconds: &'a [u32],
}

impl<'a> Lines<'a> {
    // The kind of a line that is within all three lists.
    #[tactic(auto, using(crate::proofs::GoingBack::kind_past, crate::proofs::GoingBack::kind_within))]
    fn kind_at(&self, at: usize) -> Option<u32>
        ensures { unwrap_or result 0 ≡ kind_in self.now at }
    {
        self.firsts.get(at)?;
        self.seconds.get(at)?;
        self.kinds.get(at).copied()
    }

    // The kind of a line; past the list 0, which is no kind.
    fn kind(&self, line: u32) -> u32
        ensures { result ≡ kind_in self.now line }
    {
        self.kind_at(line as usize).unwrap_or(0)
    }

    // Whether a line is a join line: a strict or an open join.
    #[tactic(auto, unfolding(crate::specs::Rests::is_join))]
    fn is_join(&self, line: u32) -> bool
        ensures { result ≡ is_join (kind_in self.now line) }
    {
        matches!(self.kind(line), STRICT_JOIN | OPEN_JOIN)
    }

    // Whether a line is a rule line: Lower or Upper.
    #[tactic(auto, unfolding(crate::specs::Rests::is_rule))]
    fn is_rule(&self, line: u32) -> bool
        ensures { result ≡ is_rule (kind_in self.now line) }
    {
        matches!(self.kind(line), LOWER | UPPER)
    }

    // What a join line rests on, or `room` if that is less; 0 for any other line. Each line that is counted takes one off the room that is handed down, so that
    // no more than `room` lines are ever gone back to, whatever the lists hold. What the second reference rests on as a join line is counted by going on in the
    // loop, so calls nest only at first references and where join and rule lines take turns: at most as deep as there are lines before this one, and as `room`.
    // The loop is no `for`: it goes along references, and not from one number to the next.
    // The lists are lent and not copied, so that a nested call takes little stack.
    #[cycle(joins_rules)]
    fn joins(&self, line: u32, room: u32) -> u32
        ensures { result ≡ min (joins_in self.now line) room }
    {
        let mut at = line;
        let mut count: u32 = 0;
        while self.is_join(at) {
            if count == room {
                return count;
            }
            let first = reference(self.firsts, at);
            if first < at {
                count += 1;
                count += self.joins(first, room - count);
                count += self.rules(first, room - count);
            }
            let second = reference(self.seconds, at);
            if at <= second {
                return count;
            }
            if count == room {
                return count;
            }
            count += 1;
            count += self.rules(second, room - count);
            at = second;
        }
        count
    }

    // The same of a rule line: what it rests on, or `room` if that is less; 0 for any other line. It goes on in the loop where the second reference is a rule line.
    #[cycle(joins_rules)]
    fn rules(&self, line: u32, room: u32) -> u32
        ensures { result ≡ min (rules_in self.now line) room }
    {
        let mut at = line;
        let mut count: u32 = 0;
        while self.is_rule(at) {
            if count == room {
                return count;
            }
            let one = reference(self.firsts, at);
            if one < at {
                count += 1;
                count += self.joins(one, room - count);
                count += self.rules(one, room - count);
            }
            let other = reference(self.seconds, at);
            if at <= other {
                return count;
            }
            if count == room {
                return count;
            }
            count += 1;
            count += self.joins(other, room - count);
            at = other;
        }
        count
    }
}

// How many lines a line rests on, itself not counted and repeats counted, or 1,000,000 if that is less. A line past the list or of no kind gives 0.
pub fn rests(kinds: &[u32], firsts: &[u32], seconds: &[u32], line: u32) -> u32
    ensures { result ≡ min (rests_on kinds.now firsts.now seconds.now line) largest }
{
    let lines = Lines {
        kinds,
        firsts,
        seconds,
    };
    let count = lines.joins(line, LARGEST);
    count + lines.rules(line, LARGEST - count)
}
