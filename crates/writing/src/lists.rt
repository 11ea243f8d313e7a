// A plan whose fields are lent as lists.
ghost use Rattle.std.specs.Prelude.{◌≡◌};
ghost use Rattle.writing.specs.PlanLists.{even_lists};

// The number of points, and a list for each field of a limit and of a link.
#[derive(Clone, Copy)]
pub struct PlanLists<'a> {
    pub n: u32,
    pub from: &'a [u32],
    pub to: &'a [u32],
    pub weight: &'a [i32],
    pub act: &'a [u32],
    pub con: &'a [u32],
    pub short: &'a [u32],
    pub long: &'a [u32],
}

impl<'a> PlanLists<'a> {
    ghost use Rattle.writing.specs.Puts.{lent};

    // Whether each list is as long as the first of its kind.
    pub fn even(self) -> bool
        ensures { result ≡ even_lists (lent self.entry) }
    {
        let m = self.from.len();
        let k = self.act.len();
        let limits = (self.to.len() == m) & (self.weight.len() == m);
        limits & (self.con.len() == k) & (self.short.len() == k) & (self.long.len() == k)
    }
}
